//! Written by tools/gen/sql-proofs from src/table_texts.rt of desk_records. What it makes is proved; the tool is not trusted.
//! The tables of a desk.

ghost use Rattle.std.specs.Prelude.{◌≡◌};
ghost use Rattle.desk_records.specs.Schema.{name_of};
ghost use Rattle.desk_records.specs.TableTexts.{create_text_of};
ghost use Rattle.desk_opening.specs.Places.{place_of};

use desk_records::{
    CREATE_ACTION, CREATE_ARTIFACT, CREATE_DESK, CREATE_FEEDBACK, CREATE_FEEDBACK_NUMBER,
    CREATE_GROUP_RULE, CREATE_MEMBER, CREATE_MODULE, CREATE_OFFER, CREATE_PIECE, CREATE_ROLLOUT,
    CREATE_ROLLOUT_GROUP, CREATE_SET, CREATE_SET_MODULE, CREATE_TARGET, CREATE_TARGET_ATTRIBUTE,
    CREATE_TARGET_TAG,
};

/// A table of a desk.
#[derive(Clone, Copy)]
pub(crate) enum DeskTable {
    Desk,
    Modules,
    Sets,
    SetModules,
    Artifacts,
    Pieces,
    Targets,
    TargetTags,
    TargetAttributes,
    Rollouts,
    Members,
    Groups,
    Actions,
    Feedbacks,
    Offers,
    Rules,
    Numbers,
}

/// All of them, in the order in which they are made.
pub(crate) const TABLES: [DeskTable; 17] = [
    DeskTable::Desk,
    DeskTable::Modules,
    DeskTable::Sets,
    DeskTable::SetModules,
    DeskTable::Artifacts,
    DeskTable::Pieces,
    DeskTable::Targets,
    DeskTable::TargetTags,
    DeskTable::TargetAttributes,
    DeskTable::Rollouts,
    DeskTable::Members,
    DeskTable::Groups,
    DeskTable::Actions,
    DeskTable::Feedbacks,
    DeskTable::Offers,
    DeskTable::Rules,
    DeskTable::Numbers,
];

impl DeskTable {
    /// Its name in the schema.
    pub(crate) fn name(self) -> &'static str
        ensures { result.now ≡ name_of (place_of self) }
    {
        match self {
            DeskTable::Desk => "desk",
            DeskTable::Modules => "module",
            DeskTable::Sets => "dset",
            DeskTable::SetModules => "set_module",
            DeskTable::Artifacts => "artifact",
            DeskTable::Pieces => "piece",
            DeskTable::Targets => "target",
            DeskTable::TargetTags => "target_tag",
            DeskTable::TargetAttributes => "target_attribute",
            DeskTable::Rollouts => "rollout",
            DeskTable::Members => "member",
            DeskTable::Groups => "rollout_group",
            DeskTable::Actions => "action",
            DeskTable::Feedbacks => "feedback",
            DeskTable::Offers => "offer",
            DeskTable::Rules => "group_rule",
            DeskTable::Numbers => "feedback_number",
        }
    }

    /// The text that makes it.
    pub(crate) fn create_text(self) -> &'static str
        ensures { result.now ≡ create_text_of (place_of self) }
    {
        match self {
            DeskTable::Desk => CREATE_DESK,
            DeskTable::Modules => CREATE_MODULE,
            DeskTable::Sets => CREATE_SET,
            DeskTable::SetModules => CREATE_SET_MODULE,
            DeskTable::Artifacts => CREATE_ARTIFACT,
            DeskTable::Pieces => CREATE_PIECE,
            DeskTable::Targets => CREATE_TARGET,
            DeskTable::TargetTags => CREATE_TARGET_TAG,
            DeskTable::TargetAttributes => CREATE_TARGET_ATTRIBUTE,
            DeskTable::Rollouts => CREATE_ROLLOUT,
            DeskTable::Members => CREATE_MEMBER,
            DeskTable::Groups => CREATE_ROLLOUT_GROUP,
            DeskTable::Actions => CREATE_ACTION,
            DeskTable::Feedbacks => CREATE_FEEDBACK,
            DeskTable::Offers => CREATE_OFFER,
            DeskTable::Rules => CREATE_GROUP_RULE,
            DeskTable::Numbers => CREATE_FEEDBACK_NUMBER,
        }
    }
}
