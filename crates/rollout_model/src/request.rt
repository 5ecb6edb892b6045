//! What a desk is asked, and what it answers.

ghost use Rattle.std.specs.Prelude.{◌≡◌, IfOk};

use crate::artifact::{Artifact, Upload};
use crate::cancel::Cancel;
use crate::config_data::ConfigData;
use crate::contents::Contents;
use crate::credential::Credential;
use crate::distribution_set::{DistributionSet, SetLabel};
use crate::feedback::{CancelWord, DeploymentWord, DeviceFeedback};
use crate::filename::Filename;
use crate::filter_text::FilterText;
use crate::module::{Module, ModuleLabel};
use crate::number::{ActionNo, ArtifactNo, ModuleNo, RolloutNo, SetNo};
use crate::page::{Page, PageOf};
use crate::refusal::Refusal;
use crate::rollout::{Action, Deployment, Group, NumberedEntry, Offer, Rollout, RolloutReport};
use crate::rollout_plan::RolloutPlan;
use crate::shown_target::ShownTarget;
use crate::target_row::TargetRows;
use crate::word::{ControllerId, Word};
use std::alloc::{AllocError, Global};

/// What changes a desk.
#[derive(Drop)]
pub enum Command {
    /// Adds a software module.
    AddModule(ModuleLabel),
    /// Adds an artifact to a software module.
    AddArtifact(Upload),
    /// Adds a distribution set.
    AddSet(SetLabel),
    /// Puts targets: new ones, and new names, tokens and tags of those that are there.
    PutTargets(TargetRows),
    /// Gives a target a tag.
    Tag(ControllerId, Word),
    /// Takes a tag from a target.
    Untag(ControllerId, Word),
    /// Gives the device's target new values of attributes. The others stay.
    PutAttributes(Credential, ConfigData),
    /// Creates a rollout.
    CreateRollout(RolloutPlan),
    /// Approves a rollout that waits for approval.
    Approve(RolloutNo),
    /// Denies one that waits for approval, for good.
    Deny(RolloutNo),
    /// Starts a rollout: its first group, and an action for each member.
    Start(RolloutNo),
    /// Pauses a running rollout: no group starts by itself.
    Pause(RolloutNo),
    /// Lets a paused rollout go on.
    Resume(RolloutNo),
    /// Starts the next group whatever the last one's success.
    TriggerNext(RolloutNo),
    /// Cancels an action of a target.
    Cancel(Cancel),
    /// What a device says of a deployment.
    Feedback(DeviceFeedback<DeploymentWord>),
    /// What a device says of a cancel.
    CancelFeedback(DeviceFeedback<CancelWord>),
}

impl Command {
    /// The same command in memory of its own.
    pub fn copy(&self, alloc: Global) -> Result<Command, AllocError>
        ensures { IfOk result (λ command. command ≡ self.now) }
    {
        match self {
            Command::AddModule(label) => Ok(Command::AddModule(label.copy(alloc)?)),
            Command::AddArtifact(upload) => Ok(Command::AddArtifact(upload.copy(alloc)?)),
            Command::AddSet(label) => Ok(Command::AddSet(label.copy(alloc)?)),
            Command::PutTargets(rows) => Ok(Command::PutTargets(rows.copy(alloc)?)),
            Command::Tag(id, tag) => Ok(Command::Tag(*id, *tag)),
            Command::Untag(id, tag) => Ok(Command::Untag(*id, *tag)),
            Command::PutAttributes(device, given) => {
                Ok(Command::PutAttributes(*device, given.copy(alloc)?))
            }
            Command::CreateRollout(plan) => Ok(Command::CreateRollout(plan.copy(alloc)?)),
            Command::Approve(number) => Ok(Command::Approve(*number)),
            Command::Deny(number) => Ok(Command::Deny(*number)),
            Command::Start(number) => Ok(Command::Start(*number)),
            Command::Pause(number) => Ok(Command::Pause(*number)),
            Command::Resume(number) => Ok(Command::Resume(*number)),
            Command::TriggerNext(number) => Ok(Command::TriggerNext(*number)),
            Command::Cancel(cancel) => Ok(Command::Cancel(*cancel)),
            Command::Feedback(report) => Ok(Command::Feedback(report.copy(alloc)?)),
            Command::CancelFeedback(report) => Ok(Command::CancelFeedback(report.copy(alloc)?)),
        }
    }
}

/// What asks a desk and changes nothing.
#[derive(Drop)]
pub enum Query {
    /// A page of the modules, in the order of their numbers.
    Modules(Page),
    /// The module of this number.
    Module(ModuleNo),
    /// A page of the artifacts of a module, in the order of their numbers.
    Artifacts(ModuleNo, Page),
    /// An artifact of a module, by its number.
    Artifact(ModuleNo, ArtifactNo),
    /// The contents of an artifact of a module.
    Contents(ModuleNo, ArtifactNo),
    /// A page of the distribution sets, in the order of their numbers.
    Sets(Page),
    /// The distribution set of this number.
    Set(SetNo),
    /// A page of the targets in byte order of their ids: of those that match the filter, or else of all.
    Targets(Option<FilterText>, Page),
    /// The target of this id.
    Target(ControllerId),
    /// What the device is offered.
    Poll(Credential),
    /// The deployment of the action that the device is offered.
    Deployment(Credential, ActionNo),
    /// The cancel of the action that the device is offered to cancel.
    CancelOf(Credential, ActionNo),
    /// The contents of an artifact of what the device is offered.
    Download(Credential, ModuleNo, Filename),
    /// A page of the actions of a target, in the order of their numbers.
    Actions(ControllerId, Page),
    /// An action of a target.
    Action(ControllerId, ActionNo),
    /// A page of the feedback on an action, in its order.
    History(ControllerId, ActionNo, Page),
    /// A page of the rollouts, in the order of their numbers.
    Rollouts(Page),
    /// The rollout of this number.
    Rollout(RolloutNo),
    /// A page of the groups of a rollout, in their order.
    Groups(RolloutNo, Page),
    /// A group of a rollout, by its number in there.
    Group(RolloutNo, u32),
    /// A page of the members of a group, in byte order of their ids.
    GroupTargets(RolloutNo, u32, Page),
    /// A rollout with all its groups.
    Report(RolloutNo),
    /// All actions of a rollout, in the order of their numbers.
    ActionsTable(RolloutNo),
}

/// A command or a query.
#[derive(Drop)]
pub enum Request {
    Do(Command),
    Ask(Query),
}

/// What a desk answers to a request.
#[derive(Drop)]
pub enum Reply {
    /// A command that has nothing to show was accepted.
    Done,
    /// The module was added.
    ModuleAdded(Module),
    Modules(PageOf<Module>),
    Module(Module),
    /// The artifact was added.
    ArtifactAdded(Artifact),
    Artifacts(PageOf<Artifact>),
    Artifact(Artifact),
    Contents(Contents),
    /// The distribution set was added.
    SetAdded(DistributionSet),
    Sets(PageOf<DistributionSet>),
    Set(DistributionSet),
    /// As many rows of targets were accepted.
    TargetsPut(u32),
    Targets(PageOf<ShownTarget>),
    Target(ShownTarget),
    /// The rollout was created.
    RolloutAdded(Rollout),
    /// What the device of this id is offered.
    Poll(ControllerId, Option<Offer>),
    Deployment(Deployment),
    /// The action that is to be canceled.
    Cancel(ActionNo),
    Actions(PageOf<Action>),
    Action(Action),
    History(PageOf<NumberedEntry>),
    Rollouts(PageOf<Rollout>),
    Rollout(Rollout),
    Groups(PageOf<Group>),
    Group(Group),
    Report(RolloutReport),
    ActionsTable(Vec<Action>),
    /// The request was refused: nothing changed, except perhaps after `StoreFailed`.
    Refused(Refusal),
}
