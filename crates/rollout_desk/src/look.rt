//! Looks at the records, in changes that are given up: what is read in one, a piece of an artifact's contents, a page of targets, and the artifact
//! that a device downloads.

ghost use Rattle.std.specs.Prelude.{◌≡◌, ◌⊎◌, length, Some, Result, Ok, Err, MatchResult};
ghost use Rattle.sqlite.specs.Held.{state};
ghost use Rattle.desk_records.specs.Artifacts.{piece_numbered};
ghost use Rattle.desk_records.specs.Holds.{HoldsRecords};
ghost use Rattle.rollout_desk.specs.Causes.{FailsByCalls};
ghost use Rattle.rollout_desk.specs.private.Changes.{EndsChange};
ghost use Rattle.desk_store.specs.Changing.{StaysIn, seen_in};
ghost use Rattle.sql_calls.specs.Standing.{Wears};
ghost use Rattle.sql_calls.specs.declared.calls.Calls.{Calls};
ghost use Rattle.sql_calls.specs.declared.fault.Fault.{Fault};
ghost use Rattle.desk_records.specs.Targets.{ids_of};
ghost use Rattle.desk_views.specs.Targets.{IsContentOf};
ghost use Rattle.rollout_desk.specs.Looks.{EndsLook, HasPage, IsOtherThan, Looked, Looks, LooksForDownload, ReadsDownload, ReadsPiece};
ghost use Rattle.rollout_desk.specs.Looks.{ReadsTargets, ReadsWithIds, bytes_of};
ghost use Rattle.rollout_desk.specs.Working.{TellsFailures, tells_store};

use crate::refusals::refusal_of;
use desk_store::{Calls, DeskStore, Fault, OpenChange};
use desk_views::{find_download, read_known_page, read_target_ids};
use rollout_model::{
    Artifact, ArtifactNo, ControllerId, Credential, Filename, ModuleNo, Page, Refusal, ShownTarget,
};
use sqlite::Alter;
use std::alloc::Global;

/// Gives a change up, and then what was found in it.
pub(crate) fn give_up<S: Alter, T: Drop>(
    change: OpenChange<'_, S>,
    found: Result<T, Refusal>,
) -> Result<T, Refusal>
    ensures { EndsChange S.Store EndsLook tells_store change.entry.store.now.calls change.exit.0.now.calls found result }
{
    match change.give_up() {
        Ok(()) => found,
        Err(_) => Err(Refusal::StoreFailed),
    }
}

/// What is read in a change.
pub(crate) trait Question<S: Alter, T: Drop> {
    // what is known of what was read, by the calls before it and after it
    ghost finds: { Self → Calls S → Calls S → Result T Fault → Type 0 };

    fn read(&self, calls: &mut Calls<S>) -> Result<T, Fault>
        ensures stays { StaysIn S.Store calls.old calls.new result }
        ensures wears { Wears (seen_in S.Store calls.old) (seen_in S.Store calls.new) }
        ensures finds { finds self.now calls.old calls.new result };
}

/// Looks at what is read, inside a transaction that changes nothing.
pub(crate) fn look<Q: Question<S, T>, S: Alter, T: Drop>(
    store: &mut DeskStore<S>,
    it: &Q,
) -> Result<T, Refusal>
    ensures { Looked S.Store (Q.finds it.now) store.old.calls store.new.calls result }
{
    let mut change = match store.begin() {
        Ok(change) => change,
        Err(fault) => return Err(refusal_of(fault)),
    };
    match it.read(change.calls()) {
        Ok(found) => give_up(change, Ok(found)),
        Err(fault) => give_up(change, Err(refusal_of(fault))),
    }
}

/// A piece of an artifact's contents, by its place counted from 1.
#[derive(Drop)]
pub(crate) struct PieceOf {
    pub(crate) number: ArtifactNo,
    pub(crate) place: u32,
}

impl<S: Alter> Question<S, Option<Vec<u8>>> for PieceOf {
    ghost finds = { λ it. ReadsPiece S.Store it.number it.place };

    fn read(&self, calls: &mut Calls<S>) -> Result<Option<Vec<u8>>, Fault> {
        desk_store::read_piece(calls, self.number, self.place)
    }
}

/// Reads a piece of an artifact's contents, by its place counted from 1, inside a transaction that changes nothing.
pub(crate) fn read_piece<S: Alter>(
    store: &mut DeskStore<S>,
    number: ArtifactNo,
    place: u32,
) -> Result<Option<Vec<u8>>, Refusal>
    ensures looks { Looks HoldsRecords (state S.Store store.old.calls.conn) (state S.Store store.new.calls.conn) result
        (λ r found. bytes_of found ≡ piece_numbered r.artifacts number place) }
    ensures tells { TellsFailures (tells_store result) store.old.calls store.new.calls }
    ensures fails { result ≡ Err Refusal.StoreFailed → FailsByCalls S.Store store.old.calls store.new.calls }
{
    look(store, &PieceOf { number, place })
}

/// The targets on a page of all, whose ids are known.
#[derive(Drop)]
struct KnownPage<'a> {
    alloc: Global,
    ids: &'a [ControllerId],
    page: Page,
}

impl<'a, S: Alter> Question<S, Vec<ShownTarget>> for KnownPage<'a> {
    ghost finds = { λ it. ReadsTargets S.Store it.ids.now it.page };

    fn read(&self, calls: &mut Calls<S>) -> Result<Vec<ShownTarget>, Fault> {
        read_known_page(self.alloc, calls, self.ids, self.page)
    }
}

/// Reads the targets on a page of all, whose ids are known, inside a transaction that changes nothing.
pub(crate) fn look_at_page<S: Alter>(
    alloc: Global,
    store: &mut DeskStore<S>,
    ids: &[ControllerId],
    page: Page,
) -> Result<Vec<ShownTarget>, Refusal>
    ensures looks { Looks HoldsRecords (state S.Store store.old.calls.conn) (state S.Store store.new.calls.conn) result
        (λ r content. ids.now ≡ ids_of r.targets → IsContentOf page r content.items) }
    ensures tells { TellsFailures (tells_store result) store.old.calls store.new.calls }
    ensures fails { result ≡ Err Refusal.StoreFailed → FailsByCalls S.Store store.old.calls store.new.calls }
{
    look(store, &KnownPage { alloc, ids, page })
}

/// The targets on a page of all, and the ids of all.
#[derive(Drop)]
struct PageWithIds {
    alloc: Global,
    page: Page,
}

impl<S: Alter> Question<S, (Vec<ShownTarget>, Vec<ControllerId>)> for PageWithIds {
    ghost finds = { λ it. ReadsWithIds S.Store it.page };

    fn read(&self, calls: &mut Calls<S>) -> Result<(Vec<ShownTarget>, Vec<ControllerId>), Fault> {
        let ids = read_target_ids(calls)?;
        let content = read_known_page(self.alloc, calls, &ids, self.page)?;
        Ok((content, ids))
    }
}

/// Reads the targets on a page of all, and the ids of all, inside a transaction that changes nothing.
pub(crate) fn look_at_ids<S: Alter>(
    alloc: Global,
    store: &mut DeskStore<S>,
    page: Page,
) -> Result<(Vec<ShownTarget>, Vec<ControllerId>), Refusal>
    ensures looks { Looks HoldsRecords (state S.Store store.old.calls.conn) (state S.Store store.new.calls.conn) result
        (λ r found. HasPage page r found.0.items found.1.items) }
    ensures tells { TellsFailures (tells_store result) store.old.calls store.new.calls }
    ensures fails { result ≡ Err Refusal.StoreFailed → FailsByCalls S.Store store.old.calls store.new.calls }
{
    look(store, &PageWithIds { alloc, page })
}

/// The artifact whose contents a device asks for.
#[derive(Drop)]
struct OfferedFile<'a> {
    alloc: Global,
    device: &'a Credential,
    module_number: ModuleNo,
    filename: &'a Filename,
}

impl<'a, S: Alter> Question<S, Result<Artifact, Refusal>> for OfferedFile<'a> {
    ghost finds = { λ it. ReadsDownload S.Store it.device.now it.module_number it.filename.now };

    fn read(&self, calls: &mut Calls<S>) -> Result<Result<Artifact, Refusal>, Fault> {
        find_download(
            self.alloc,
            calls,
            self.device,
            self.module_number,
            self.filename,
        )
    }
}

/// Finds the artifact whose contents a device asks for, or else what the download is refused with, inside a transaction that changes nothing.
pub(crate) fn look_for_download<S: Alter>(
    alloc: Global,
    store: &mut DeskStore<S>,
    device: &Credential,
    module_number: ModuleNo,
    filename: &Filename,
) -> Result<Artifact, Refusal>
    ensures { LooksForDownload S.Store store.old.calls store.new.calls device.now module_number filename.now result }
{
    let it = OfferedFile {
        alloc,
        device,
        module_number,
        filename,
    };
    match look(store, &it) {
        Ok(found) => found,
        Err(refusal) => Err(refusal),
    }
}

/// The piece that was found, where it is of this many bytes: another one, and none, is a failed store.
pub(crate) fn of_length(
    found: Result<Option<Vec<u8>>, Refusal>,
    wanted: u64,
) -> Result<Vec<u8>, Refusal>
    ensures { MatchResult result (λ piece. (found ≡ Ok (Some piece)) × (length piece.items ≡ wanted))
        (λ refusal. (found ≡ Err refusal) ⊎ ((refusal ≡ Refusal.StoreFailed) × IsOtherThan wanted found)) }
{
    match found? {
        Some(piece) if piece.len() as u64 == wanted => Ok(piece),
        _ => Err(Refusal::StoreFailed),
    }
}
