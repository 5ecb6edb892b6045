//! The codes of columns.

ghost use Rattle.std.specs.Prelude.{◌≡◌};
ghost use Rattle.desk_records.specs.Codes.{approval_code, flag, outcome_code};

use rollout_machine::Outcome;
use rollout_model::Approval;

pub(crate) fn flag_code(given: bool) -> u32
    ensures { result ≡ flag given }
{
    if given { 1 } else { 0 }
}

pub(crate) fn code_of_approval(approval: Approval) -> u32
    ensures { result ≡ approval_code approval }
{
    match approval {
        Approval::Waiting => 0,
        Approval::Given => 1,
        Approval::Denied => 2,
    }
}

/// 0 while it is open.
pub(crate) fn code_of_outcome(outcome: Option<Outcome>) -> u32
    ensures { result ≡ outcome_code outcome }
{
    match outcome {
        None => 0,
        Some(Outcome::Good) => 1,
        Some(Outcome::Bad) => 2,
        Some(Outcome::Gone) => 3,
    }
}
