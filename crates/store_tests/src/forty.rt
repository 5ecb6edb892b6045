//! The commands behind forty requests, and what shows what they made.

use super::asked::{
    adds_artifact, adds_module, adds_set, creates, credential_of, feedback, puts, row_of,
};
use rollout_model::{
    ActionNo, ArtifactNo, Attribute, Attributes, Cancel, CancelWord, Command, ConfigData,
    ControllerId, DeploymentWord, ModuleNo, NoteWord, Page, Query, Request, RolloutNo, Tags, Value,
    Word,
};
use std::alloc::Global;

const COMMANDS: u32 = 31;

/// How many of the commands change what is shown. Of the others two come again, and three are refused.
pub(super) const CHANGES: usize = 26;

const LOOKS: u32 = 22;

const DEVICES: [&str; 5] = ["dev-01", "dev-02", "dev-03", "dev-04", "dev-05"];

fn uploads(alloc: Global, filename: &str, bytes: &[u8]) -> Option<Command> {
    adds_artifact(filename, Vec::from_slice(alloc, bytes).ok()?)
}

/// Puts the first devices under these names, each with these tags.
fn puts_first(alloc: Global, names: &[&str], tags: &[Word]) -> Option<Command> {
    let mut rows = Vec::new(alloc);
    for (id, name) in DEVICES.iter().zip(names) {
        let mut row = row_of(alloc, ControllerId::read(id)?, name)?;
        row.tags = Tags::from_words(Vec::from_slice(alloc, tags).ok()?)?;
        rows.push(row).ok()?;
    }
    Some(puts(rows))
}

fn puts_attribute(alloc: Global, id: ControllerId) -> Option<Command> {
    let key = Word::read("k")?;
    let value = Value::read(alloc, "v").ok()??;
    let mut given = Attributes::new(alloc);
    given.push(Attribute { key, value }).ok()?;
    let given = ConfigData::from_attributes(given)?;
    Some(Command::PutAttributes(credential_of(id), given))
}

fn says(alloc: Global, id: ControllerId, action: u32, word: DeploymentWord) -> Option<Command> {
    Some(Command::Feedback(feedback(alloc, id, action, word)?))
}

fn says_of_cancel(alloc: Global, id: ControllerId, word: CancelWord) -> Option<Command> {
    Some(Command::CancelFeedback(feedback(alloc, id, 2, word)?))
}

fn cancels(target: ControllerId, force: bool) -> Option<Command> {
    let action = ActionNo::new(2)?;
    Some(Command::Cancel(Cancel {
        target,
        action,
        force,
    }))
}

/// The command at a place, from 1.
fn command(alloc: Global, place: u32) -> Option<Command> {
    let (one, two) = (RolloutNo::new(1)?, RolloutNo::new(2)?);
    let (first, second) = (ControllerId::read("dev-01")?, ControllerId::read("dev-02")?);
    let lab = Word::read("lab")?;
    let proceeding = NoteWord::Proceeding;
    match place {
        1 | 2 => adds_module(alloc),
        3 => uploads(alloc, "abc.bin", b"abc"),
        4 => uploads(alloc, "empty.bin", b""),
        5 => adds_set(alloc),
        6 => uploads(alloc, "x.bin", b"abc"),
        7 => puts_first(alloc, &DEVICES, &[]),
        8 => Some(Command::Tag(first, lab)),
        9 => Some(Command::Untag(first, lab)),
        10 => puts_attribute(alloc, first),
        11 | 12 => puts_first(alloc, &["Lab one", "Lab two", "Yard"], &[lab]),
        13 => creates(alloc, "one", "name==*", 50),
        14 => Some(Command::Start(one)),
        15 => says(alloc, first, 1, DeploymentWord::Noted(proceeding)),
        16 => Some(Command::Pause(one)),
        17 | 19 => says(alloc, first, 1, DeploymentWord::Succeeded),
        18 => Some(Command::Resume(one)),
        20 => says(alloc, first, 1, DeploymentWord::Failed),
        21 | 24 => cancels(second, false),
        22 => says_of_cancel(alloc, second, CancelWord::Noted(proceeding)),
        23 => says_of_cancel(alloc, second, CancelWord::Rejected),
        25 => cancels(second, true),
        26 => creates(alloc, "two", "name==Lab*", 100),
        27 => Some(Command::Start(two)),
        28 => says(alloc, first, 6, DeploymentWord::Failed),
        29 => Some(Command::Resume(two)),
        30 => Some(Command::TriggerNext(two)),
        31 => says(alloc, second, 7, DeploymentWord::Succeeded),
        _ => None,
    }
}

pub(super) fn commands(alloc: Global) -> Option<Vec<Request>> {
    let mut commands = Vec::new(alloc);
    for place in 1..=COMMANDS {
        commands.push(Request::Do(command(alloc, place)?)).ok()?;
    }
    Some(commands)
}

/// The query at a place, from 0: the history of each action, what each device is offered, the rollouts and all else.
fn look(place: u32) -> Option<Query> {
    let page = Page {
        offset: 0,
        limit: 100,
    };
    let module_number = ModuleNo::new(1)?;
    let id = ControllerId::read(DEVICES[place as usize % 5])?;
    match place {
        0..=6 => Some(Query::History(id, ActionNo::new(place + 1)?, page)),
        7..=11 => Some(Query::Poll(credential_of(id))),
        12..=13 => Some(Query::Report(RolloutNo::new(place - 11)?)),
        14..=15 => Some(Query::ActionsTable(RolloutNo::new(place - 13)?)),
        16 => Some(Query::Contents(module_number, ArtifactNo::new(1)?)),
        17 => Some(Query::Artifacts(module_number, page)),
        18 => Some(Query::Modules(page)),
        19 => Some(Query::Sets(page)),
        20 => Some(Query::Targets(None, page)),
        21 => Some(Query::Rollouts(page)),
        _ => None,
    }
}

pub(super) fn looks(alloc: Global) -> Option<Vec<Request>> {
    let mut looks = Vec::new(alloc);
    for place in 0..LOOKS {
        looks.push(Request::Ask(look(place)?)).ok()?;
    }
    Some(looks)
}
