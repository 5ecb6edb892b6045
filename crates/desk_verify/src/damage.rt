//! What a verification names.

ghost use Rattle.std.specs.Prelude.{◌≡◌};
ghost use Rattle.desk_verify.specs.Names.{damage_name, table_name};

use rollout_model::Refusal;

/// A table that is checked. The variants stand in the order in which they are.
#[derive(Clone, Copy, PartialEq, Eq)]
pub enum CheckedTable {
    Artifact,
    Member,
    RolloutGroup,
    Action,
    Offer,
}

impl CheckedTable {
    /// Its name in the schema.
    pub fn name(self) -> &'static str
        ensures { result.now ≡ table_name self }
    {
        match self {
            CheckedTable::Artifact => "artifact",
            CheckedTable::Member => "member",
            CheckedTable::RolloutGroup => "rollout_group",
            CheckedTable::Action => "action",
            CheckedTable::Offer => "offer",
        }
    }
}

/// Why a verification doesn't end well.
#[derive(Clone, Copy, PartialEq, Eq)]
pub enum Damage {
    /// The first table that doesn't agree.
    Table(CheckedTable),
    /// It wasn't found out whether one doesn't.
    Refused(Refusal),
}

impl Damage {
    /// The name of the table, or of the refusal.
    pub fn name(&self) -> &'static str
        ensures { result.now ≡ damage_name self.now }
    {
        match self {
            Damage::Table(table) => table.name(),
            Damage::Refused(refusal) => refusal.name(),
        }
    }
}
