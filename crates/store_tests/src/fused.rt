//! The commands of forty requests, over two files of which one takes some calls and fails at each later one. A desk that opens over
//! what is left agrees, and shows what the accepted commands leave, or those and the one in doubt.

ghost use Rattle.std.specs.Prelude.{IsTrue, IfSome};
ghost use Rattle.sqlite_disk.specs.Memory.{memory_is_usable};

use super::forty::{CHANGES, commands, looks};
use super::told::{answer, new_desk, run, verifies};
use ddi_api::device_reply;
use desk_opening::DeskLeftover;
use mgmt_api::manage_reply;
use rollout_desk::{Desk, goes_on_after_crash};
use rollout_model::{Reply, Request};
use sqlite::{Alter, FileStore, Files, Leftover, MemStore, Options};
use sqlite_disk::{Crash, Disk, Fuse, Memory};
use std::alloc::Global;

/// Few pages are kept in memory, and the log is copied into the database file after few commands.
const OPTIONS: Options = Options {
    cache_pages: 8,
    spill_pages: 2000,
    checkpoint_frames: 40,
    seed: 1,
};

/// Fewer calls than the commands make on either file.
const FEW: u64 = 100;

/// More calls than that.
const MANY: u64 = 10_000;

/// What is done and what shows it, with what is shown after none of the commands, after the first one, and so on, by a desk in memory.
#[derive(Drop)]
struct Course {
    commands: Vec<Request>,
    looks: Vec<Request>,
    shown: Vec<Vec<u8>>,
    desk: Desk<MemStore>,
}

/// Files, and how many of the commands they keep, at least and at most.
#[derive(Drop)]
struct Left {
    files: Files<Fuse<Memory>>,
    least: usize,
    most: usize,
}

/// Adds the bytes that a reply is told in, to operators and to devices.
fn add_told(alloc: Global, text: &mut Vec<u8>, reply: &Reply) -> Option<()> {
    let told = manage_reply(alloc, reply).ok()?;
    text.extend_from_slice(&told.body).ok()?;
    let told = device_reply(alloc, reply).ok()?;
    text.extend_from_slice(&told.body).ok()
}

fn shown_by<S: Alter>(alloc: Global, desk: &mut Desk<S>, looks: &[Request]) -> Option<Vec<u8>> {
    let mut text = Vec::new(alloc);
    for reply in &run(desk, looks).ok()? {
        add_told(alloc, &mut text, reply)?;
    }
    Some(text)
}

/// What a desk shows that does the commands, before the first one and after each.
fn shown_after_each(
    alloc: Global,
    desk: &mut Desk<MemStore>,
    commands: &[Request],
    looks: &[Request],
) -> Option<Vec<Vec<u8>>> {
    let mut shown = Vec::new(alloc);
    shown.push(shown_by(alloc, desk, looks)?).ok()?;
    for command in commands {
        answer(desk, command);
        shown.push(shown_by(alloc, desk, looks)?).ok()?;
    }
    Some(shown)
}

fn changes(shown: &[Vec<u8>]) -> usize {
    shown.windows(2).filter(|pair| pair[0] != pair[1]).count()
}

fn new_course(alloc: Global) -> Option<Course> {
    let commands = commands(alloc)?;
    let looks = looks(alloc)?;
    let mut desk = new_desk(alloc)?;
    let shown = shown_after_each(alloc, &mut desk, &commands, &looks)?;
    Some(Course {
        commands,
        looks,
        shown,
        desk,
    })
}

/// Does the commands, and gives the desk up.
fn left_by(mut desk: Desk<FileStore<Fuse<Memory>>>, course: &Course) -> Option<Left> {
    let replies = run(&mut desk, &course.commands);
    let stopped = desk.stopped();
    let files = goes_on_after_crash(desk, &course.desk);
    let most = replies.ok()?.len();
    let least = most.saturating_sub(stopped as usize);
    Some(Left { files, least, most })
}

/// The files over which no desk was opened.
fn files_left(left: DeskLeftover<Fuse<Memory>>) -> Files<Fuse<Memory>> {
    match left {
        DeskLeftover::Unopened(left) => left.into_files(),
        DeskLeftover::Refused(calls) => {
            Leftover::Store(calls.into_connection().into_store()).into_files()
        }
    }
}

/// What is left where a desk is opened over new files that take so many calls, and does the commands.
fn leave(alloc: Global, course: &Course, log_calls: u64, db_calls: u64) -> Option<Left> {
    let files = Files {
        log: Fuse::new(Memory::new(alloc), log_calls),
        db: Fuse::new(Memory::new(alloc), db_calls),
    };
    match Desk::reopen(alloc, files, OPTIONS, false) {
        Ok(desk) => left_by(desk, course),
        Err((_, unopened)) => Some(Left {
            files: files_left(unopened),
            least: 0,
            most: 0,
        }),
    }
}

/// A file that holds what was written to one.
fn copy(alloc: Global, file: &Fuse<Memory>) -> Option<Memory>
    ensures { IfSome result (λ m. IsTrue (memory_is_usable m)) }
{
    let mut copied = Memory::new(alloc);
    copied.write_at(0, file.inner().bytes()).ok()?;
    Some(copied)
}

/// What a desk over copies of the files shows, where it agrees.
fn shown_over(alloc: Global, course: &Course, files: &Files<Fuse<Memory>>) -> Option<Vec<u8>> {
    let log = copy(alloc, &files.log)?;
    let db = copy(alloc, &files.db)?;
    let mut desk = Desk::reopen(alloc, Files { log, db }, OPTIONS, false).ok()?;
    if verifies(&mut desk) {
        shown_by(alloc, &mut desk, &course.looks)
    } else {
        None
    }
}

/// Whether the files hold what so many of the commands leave.
fn is_right(alloc: Global, course: &Course, left: &Left) -> bool {
    let of = |count: usize| course.shown.get(count);
    match shown_over(alloc, course, &left.files) {
        Some(shown) => of(left.least) == Some(&shown) || of(left.most) == Some(&shown),
        None => false,
    }
}

/// Whether all commands are kept where the log and the database take so many calls, and `None` where something is wrong then: with the
/// files as they were written, with the log as it was last synced, or with both.
fn keeps_all(alloc: Global, course: &Course, log_calls: u64, db_calls: u64) -> Option<bool> {
    let mut left = leave(alloc, course, log_calls, db_calls)?;
    let mut right = is_right(alloc, course, &left);
    left.files.log.crash();
    right = right && is_right(alloc, course, &left);
    left.files.db.crash();
    right = right && is_right(alloc, course, &left);
    right.then_some(left.least == course.commands.len())
}

/// The number of calls after which something is wrong, where the log takes so many, or else the database.
fn first_wrong(alloc: Global, of_log: bool) -> Option<u64> {
    let Some(course) = new_course(alloc) else {
        return Some(0);
    };
    for calls in 0..MANY {
        let kept = if of_log {
            keeps_all(alloc, &course, calls, u64::MAX)
        } else {
            keeps_all(alloc, &course, u64::MAX, calls)
        };
        match kept {
            Some(false) => {}
            Some(true) if calls > FEW && changes(&course.shown) == CHANGES => return None,
            _ => return Some(calls),
        }
    }
    Some(MANY)
}

#[test]
fn each_call_of_the_database(rt: HostRuntime) {
    assert_eq!(rt; first_wrong(rt.alloc(), false), None);
}

#[test]
fn each_call_of_the_log(rt: HostRuntime) {
    assert_eq!(rt; first_wrong(rt.alloc(), true), None);
}
