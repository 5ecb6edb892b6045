//! How actions end.

ghost use Rattle.std.specs.Prelude.{◌≡◌};
ghost use Rattle.rollout_machine.specs.Counts.{is_outcome};

/// How an action ended: installed, failed, or gone without either.
#[derive(Clone, Copy)]
pub enum Outcome {
    Good,
    Bad,
    Gone,
}

/// Whether an action ended, and so.
pub fn is_outcome(outcome: Outcome, ended: Option<Outcome>) -> bool
    ensures { result ≡ is_outcome outcome ended }
{
    matches!(
        (outcome, ended),
        (Outcome::Good, Some(Outcome::Good))
            | (Outcome::Bad, Some(Outcome::Bad))
            | (Outcome::Gone, Some(Outcome::Gone))
    )
}
