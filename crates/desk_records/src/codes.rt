//! Columns that hold a code, or a number of a range.

ghost use Rattle.std.specs.Prelude.{◌≡◌};
ghost use Rattle.sqlite_value.specs.Order.{column};
ghost use Rattle.desk_records.specs.Codes.{approval_in, feedback_number_in, flag_in, group_count_in, number_in, outcome_in, percentage_in};
ghost use Rattle.desk_records.specs.Codes.{percentage_or_none_in, place_in};

use crate::artifact_row::number_at;
use rollout_machine::Outcome;
use rollout_model::{Approval, FeedbackNumber, GroupCount, Number, Percentage};
use sqlite::Row;
use sqlite_value::value::ValueRef;

pub(crate) fn flag_at(row: &Row, at: usize) -> Option<bool>
    ensures { result ≡ flag_in (column row.now at) }
{
    match number_at(row, at) {
        Some(0) => Some(false),
        Some(1) => Some(true),
        _ => None,
    }
}

pub(crate) fn approval_at(row: &Row, at: usize) -> Option<Approval>
    ensures { result ≡ approval_in (column row.now at) }
{
    match number_at(row, at) {
        Some(0) => Some(Approval::Waiting),
        Some(1) => Some(Approval::Given),
        Some(2) => Some(Approval::Denied),
        _ => None,
    }
}

/// How an action ended; `Some(None)` is one that is open.
pub(crate) fn outcome_at(row: &Row, at: usize) -> Option<Option<Outcome>>
    ensures { result ≡ outcome_in (column row.now at) }
{
    match number_at(row, at) {
        Some(0) => Some(None),
        Some(1) => Some(Some(Outcome::Good)),
        Some(2) => Some(Some(Outcome::Bad)),
        Some(3) => Some(Some(Outcome::Gone)),
        _ => None,
    }
}

pub(crate) fn numbered_at<Kind>(row: &Row, at: usize) -> Option<Number<Kind>>
    ensures { result ≡ number_in (column row.now at) }
{
    let number = number_at(row, at)?;
    Number::new(number)
}

/// A place, counted from 1, of 32 bits.
pub(crate) fn place_at(row: &Row, at: usize) -> Option<u32>
    ensures { result ≡ place_in (column row.now at) }
{
    match number_at(row, at) {
        Some(0) => None,
        place => place,
    }
}

pub(crate) fn feedback_number_at(row: &Row, at: usize) -> Option<FeedbackNumber>
    ensures { result ≡ feedback_number_in (column row.now at) }
{
    let number = number_at(row, at)?;
    FeedbackNumber::new(number)
}

pub(crate) fn group_count_at(row: &Row, at: usize) -> Option<GroupCount>
    ensures { result ≡ group_count_in (column row.now at) }
{
    let count = number_at(row, at)?;
    GroupCount::new(count)
}

pub(crate) fn percentage_at(row: &Row, at: usize) -> Option<Percentage>
    ensures { result ≡ percentage_in (column row.now at) }
{
    let number = number_at(row, at)?;
    let percent = u8::try_from(number).ok()?;
    Percentage::new(percent)
}

/// A percentage, or `Some(None)` where the column has no value.
pub(crate) fn percentage_or_none_at(row: &Row, at: usize) -> Option<Option<Percentage>>
    ensures { result ≡ percentage_or_none_in (column row.now at) }
{
    match row.get_ref(at) {
        Ok(ValueRef::Null) | Err(_) => Some(None),
        Ok(_) => percentage_at(row, at).map(Some),
    }
}
