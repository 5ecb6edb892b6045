//! What the types of a command's parts promise. No list is gone over: each promises the rules of its items.

ghost use Rattle.rollout_machine.specs.CommandRules.{IsWellFormed};
ghost use Rattle.rollout_machine.specs.Commands.{AddModule, AddArtifact, AddSet, PutTargets, Tag, Untag, PutAttributes};
ghost use Rattle.rollout_machine.specs.Views.{command_of};

mod rollouts;

use rollout_model::{
    Command, ConfigData, ControllerId, Credential, ModuleLabel, SetLabel, TargetRows, Upload, Word,
};
use rollouts::plan_is_well_formed;
pub use rollouts::{cancel_is_well_formed, feedback_is_well_formed, number_is_well_formed};

/// Every command keeps the rules of commands: its parts' types keep theirs.
pub fn command_is_well_formed(command: &Command)
    ensures { IsWellFormed (command_of command.now) }
{
    match command {
        Command::AddModule(label) => label_is_well_formed(label),
        Command::AddArtifact(upload) => upload_is_well_formed(upload),
        Command::AddSet(label) => set_label_is_well_formed(label),
        Command::PutTargets(rows) => rows_are_well_formed(rows),
        Command::Tag(id, tag) => tag_is_well_formed(id, tag),
        Command::Untag(id, tag) => untag_is_well_formed(id, tag),
        Command::PutAttributes(device, given) => config_data_is_well_formed(device, given),
        Command::CreateRollout(plan) => plan_is_well_formed(plan),
        Command::Approve(number)
        | Command::Deny(number)
        | Command::Start(number)
        | Command::Pause(number)
        | Command::Resume(number)
        | Command::TriggerNext(number) => number_is_well_formed(*number),
        Command::Cancel(cancel) => cancel_is_well_formed(cancel),
        Command::Feedback(feedback) => feedback_is_well_formed(feedback),
        Command::CancelFeedback(feedback) => feedback_is_well_formed(feedback),
    }
}

fn label_is_well_formed(label: &ModuleLabel)
    ensures { IsWellFormed (AddModule label.now) }
{
    let _name = label.name.as_str();
    let _kind = label.kind.as_str();
    let _version = label.version.as_str();
}

fn upload_is_well_formed(upload: &Upload)
    ensures { IsWellFormed (AddArtifact upload.now) }
{
    let _module = upload.module_number.get();
    let _filename = upload.filename.as_str();
    if let Some(expected) = &upload.expected {
        let _digest = expected.as_bytes();
    }
    let _contents = upload.contents.as_slice();
}

fn set_label_is_well_formed(label: &SetLabel)
    ensures { IsWellFormed (AddSet label.now) }
{
    let _name = label.name.as_str();
    let _version = label.version.as_str();
    let _modules = label.modules.as_slice();
}

fn rows_are_well_formed(rows: &TargetRows)
    ensures { IsWellFormed (PutTargets rows.now) }
{
    let _rows = rows.as_slice();
}

fn tag_is_well_formed(id: &ControllerId, tag: &Word)
    ensures { IsWellFormed (Tag id.now tag.now) }
{
    let _id = id.as_str();
    let _tag = tag.as_str();
}

fn untag_is_well_formed(id: &ControllerId, tag: &Word)
    ensures { IsWellFormed (Untag id.now tag.now) }
{
    let _id = id.as_str();
    let _tag = tag.as_str();
}

fn config_data_is_well_formed(device: &Credential, given: &ConfigData)
    ensures { IsWellFormed (PutAttributes device.now given.now) }
{
    let _id = device.id.as_str();
    let _digest = device.digest.as_bytes();
    let _attributes = given.as_slice();
}
