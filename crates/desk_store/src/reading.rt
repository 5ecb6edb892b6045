//! What rows and results of statements come to.

ghost use Rattle.std.specs.Prelude.{◌≡◌, ◌<◌, ◌≤◌, ◌^◌, ◌⊎◌, IfErr, IfOk, None, length, slice_get};
ghost use Rattle.desk_records.specs.Modules.{IsLastRow};
ghost use Rattle.desk_records.specs.ReadRows.{IsAttributeRow, broken_attribute_column};
ghost use Rattle.desk_store.specs.private.Rows.{AreReadAs, BreaksRule, HasBroken, HasNoApproval, HasNoNumber, IfRowsBroken};
ghost use Rattle.desk_store.specs.private.Rows.{IsApproval, IsBroken, IsCount, IsReadAs};
ghost use Rattle.desk_store.specs.private.Faults.{as_store};

use crate::from_row::FromRow;
use desk_records::{fault_of_row, read_approval};
use rollout_model::{Attribute, Attributes};
use sql_calls::{Fault, broken_of};
use sqlite::Row;
use std::alloc::Global;

/// The number in the row of the last number, and 0 where there is none.
pub(crate) fn last_number(row: Option<Row>) -> Result<u32, Fault>
    ensures ok { IfOk result (λ n. IsLastRow n row) }
    ensures err { IfErr result (λ fault. IfRowsBroken fault (HasNoNumber row)) }
{
    let Some(row) = row else {
        return Ok(0);
    };
    match row.get(0) {
        Ok(number) => Ok(number),
        Err(error) => Err(broken_of(error)),
    }
}

/// What the row is read as, where there is one.
pub(crate) fn read_optional<T: FromRow>(alloc: Global, row: Option<Row>) -> Result<Option<T>, Fault>
    ensures ok { IfOk result (λ found. IsReadAs T.is_row found row) }
    ensures err { IfErr result (λ fault. IfRowsBroken fault (IsBroken T.is_broken row)) }
{
    let Some(row) = row else {
        return Ok(None);
    };
    let found = read_one::<T>(alloc, &row)?;
    Ok(Some(found))
}

/// What the row at this place is read as, where there is one.
pub(crate) fn read_at<T: FromRow>(
    alloc: Global,
    rows: &[Row],
    at: usize,
) -> Result<Option<T>, Fault>
    ensures ok { IfOk result (λ found. IsReadAs T.is_row found (slice_get rows.now at)) }
    ensures err { IfErr result (λ fault. IfRowsBroken fault (HasBroken T.is_broken rows.now)) }
{
    let Some(row) = rows.get(at) else {
        return Ok(None);
    };
    let found = read_one::<T>(alloc, row)?;
    Ok(Some(found))
}

/// What each row is read as, in order.
#[tactic(auto, using(crate::proofs::ReadLemmas::read_more))]
pub(crate) fn read_all<T: FromRow>(alloc: Global, rows: &[Row]) -> Result<Vec<T>, Fault>
    ensures ok { IfOk result (λ found. AreReadAs T.is_row rows.now found.items) }
    ensures err { IfErr result (λ fault. IfRowsBroken fault (HasBroken T.is_broken rows.now)) }
{
    let mut found = Vec::new(alloc);
    for row in rows {
        let one = read_one::<T>(alloc, row)?;
        found.push(one)?;
    }
    Ok(found)
}

/// The attributes in rows of key and value.
#[tactic(auto, using(crate::proofs::ReadLemmas::read_more))]
pub(crate) fn read_attributes(alloc: Global, rows: &[Row]) -> Result<Attributes, Fault>
    ensures ok { IfOk result (AreReadAs IsAttributeRow rows.now) }
    ensures err { IfErr result (λ fault. IfRowsBroken fault (HasBroken (λ row. BreaksRule (broken_attribute_column row)) rows.now)) }
{
    let mut attributes = Attributes::new(alloc);
    for row in rows {
        let attribute = read_one::<Attribute>(alloc, row)?;
        attributes.push(attribute)?;
    }
    Ok(attributes)
}

fn read_one<T: FromRow>(alloc: Global, row: &Row) -> Result<T, Fault>
    ensures ok { IfOk result (T.is_row row.now) }
    ensures err { IfErr result (λ fault. IfRowsBroken fault (T.is_broken row.now)) }
{
    match T::from_row(alloc, row) {
        Ok(one) => Ok(one),
        Err(fault) => Err(fault_of_row(fault)),
    }
}

/// The number in the row of a count.
pub(crate) fn counted_in(row: Option<Row>) -> Result<u32, Fault>
    ensures ok { IfOk result (λ n. IsCount n row × (n < 2 ^ 32)) }
    ensures err { IfErr result (λ fault. IfRowsBroken fault ((row ≡ None) ⊎ HasNoNumber row)) }
{
    let Some(row) = row else {
        return Err(Fault::Broken);
    };
    match row.get(0) {
        Ok(number) => Ok(number),
        Err(error) => Err(broken_of(error)),
    }
}

/// How many rows there are.
pub(crate) fn row_count(rows: &[Row]) -> Result<u32, Fault>
    ensures ok { IfOk result (λ n. n ≡ length rows.now) }
    ensures err { IfErr result (λ fault. (fault ≡ Fault.Broken) × (2 ^ 32 ≤ length rows.now)) }
{
    let Ok(count) = u32::try_from(rows.len()) else {
        return Err(Fault::Broken);
    };
    Ok(count)
}

/// Whether rollouts wait for approval, in the desk's row.
pub(crate) fn approval_in(row: Option<Row>) -> Result<bool, Fault>
    ensures ok { IfOk result (λ approval. IsApproval approval row) }
    ensures err { IfErr result (λ fault. (fault ≡ Fault.Broken) × HasNoApproval row) }
{
    let Some(row) = row else {
        return Err(Fault::Broken);
    };
    match read_approval(&row) {
        Ok(approval) => Ok(approval),
        Err(fault) => Err(fault_of_row(fault)),
    }
}

/// A commit or a rollback that fails for whatever reason is a failed store.
pub(crate) fn finished(ended: Result<(), Fault>) -> Result<(), Fault>
    ensures { result ≡ as_store ended }
{
    match ended {
        Ok(()) => Ok(()),
        Err(_) => Err(Fault::Store),
    }
}
