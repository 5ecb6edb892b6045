//! What tests ask of a desk, in few words. `None` for want of memory, or where a word isn't what it has to be.

use rollout_model::{
    ActionNo, ArtifactNo, Command, Contents, ControllerId, Credential, Details, DeviceFeedback,
    Digest, Filename, FilterText, GroupCount, Grouping, ModuleLabel, ModuleList, ModuleNo,
    Percentage, Query, RolloutNo, RolloutPlan, SetLabel, SetNo, Tags, TargetRow, TargetRows, Text,
    Upload,
};
use std::alloc::Global;

/// The byte that the digest of each target's token has 32 times.
const TOKEN: u8 = 7;

pub(super) fn text(alloc: Global, words: &str) -> Option<Text> {
    Text::read(alloc, words).ok()?
}

/// Adds the first module.
pub(super) fn adds_module(alloc: Global) -> Option<Command> {
    let name = text(alloc, "app")?;
    let kind = text(alloc, "os")?;
    let version = text(alloc, "1.0")?;
    Some(Command::AddModule(ModuleLabel {
        name,
        kind,
        version,
    }))
}

/// Adds an artifact to the first module.
pub(super) fn adds_artifact(filename: &str, bytes: Vec<u8>) -> Option<Command> {
    let module_number = ModuleNo::new(1)?;
    let filename = Filename::read(filename)?;
    let contents = Contents::from_bytes(bytes)?;
    Some(Command::AddArtifact(Upload {
        module_number,
        filename,
        expected: None,
        contents,
    }))
}

/// So many bytes: 0, 1, 2 and so on, and from 251 on again from 0.
pub(super) fn some_bytes(alloc: Global, size: usize) -> Option<Vec<u8>> {
    let mut bytes = Vec::with_capacity(alloc, size).ok()?;
    for place in 0..size {
        bytes.push((place % 251) as u8).ok()?;
    }
    Some(bytes)
}

/// Asks for the contents of the first artifact of the first module.
pub(super) fn asks_contents() -> Option<Query> {
    Some(Query::Contents(ModuleNo::new(1)?, ArtifactNo::new(1)?))
}

/// Adds a set of the first module.
pub(super) fn adds_set(alloc: Global) -> Option<Command> {
    let mut numbers = Vec::new(alloc);
    numbers.push(ModuleNo::new(1)?).ok()?;
    let modules = ModuleList::from_numbers(numbers)?;
    let name = text(alloc, "spring")?;
    let version = text(alloc, "1")?;
    Some(Command::AddSet(SetLabel {
        name,
        version,
        modules,
    }))
}

fn token() -> Digest {
    Digest::new([TOKEN; 32])
}

/// The row of a target without tags.
pub(super) fn row_of(alloc: Global, id: ControllerId, name: &str) -> Option<TargetRow> {
    let name = text(alloc, name)?;
    let tags = Tags::from_words(Vec::new(alloc))?;
    Some(TargetRow {
        id,
        name,
        digest: token(),
        tags,
    })
}

pub(super) fn puts(rows: Vec<TargetRow>) -> Command {
    Command::PutTargets(TargetRows::from_rows(rows))
}

/// The device of a target shows its token.
pub(super) fn credential_of(id: ControllerId) -> Credential {
    Credential {
        id,
        digest: token(),
    }
}

/// Creates a rollout of the first set in two groups, of which the second starts at such a success of the first.
pub(super) fn creates(alloc: Global, name: &str, filter: &str, success: u8) -> Option<Command> {
    let set_number = SetNo::new(1)?;
    let groups = Grouping::evenly(GroupCount::new(2)?);
    let success = Percentage::new(success)?;
    let error = Percentage::new(100)?;
    let name = text(alloc, name)?;
    let filter_text = FilterText::from_text(alloc, filter).ok()?;
    Some(Command::CreateRollout(RolloutPlan {
        name,
        set_number,
        filter_text,
        groups,
        success,
        error,
    }))
}

pub(super) fn starts(number: u32) -> Option<Command> {
    Some(Command::Start(RolloutNo::new(number)?))
}

/// What a device says of an action, without further lines.
pub(super) fn feedback<W: Copy>(
    alloc: Global,
    id: ControllerId,
    action: u32,
    word: W,
) -> Option<DeviceFeedback<W>> {
    let action = ActionNo::new(action)?;
    let details = Details::from_lines(Vec::new(alloc))?;
    Some(DeviceFeedback {
        credential: credential_of(id),
        action,
        word,
        details,
        number: None,
    })
}
