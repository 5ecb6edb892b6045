//! What the words of a device come to.

ghost use Rattle.std.specs.Prelude.{◌≡◌};
ghost use Rattle.rollout_machine.specs.Actions.{outcome_of_cancel, outcome_of_deployment, outcome_said};
ghost use Rattle.rollout_machine.specs.Verdicts.{says_note};

use crate::outcome::Outcome;
use rollout_model::{CancelWord, DeploymentWord, Said};

/// The outcome that feedback on a deployment gives.
pub fn outcome_of_deployment(word: DeploymentWord) -> Option<Outcome>
    ensures { result ≡ outcome_of_deployment word }
{
    match word {
        DeploymentWord::Succeeded => Some(Outcome::Good),
        DeploymentWord::Failed => Some(Outcome::Bad),
        DeploymentWord::Rejected | DeploymentWord::Noted(_) => None,
    }
}

/// The outcome that feedback on a cancel gives.
pub fn outcome_of_cancel(word: CancelWord) -> Option<Outcome>
    ensures { result ≡ outcome_of_cancel word }
{
    match word {
        CancelWord::Closed | CancelWord::Canceled => Some(Outcome::Gone),
        CancelWord::Rejected | CancelWord::Noted(_) => None,
    }
}

/// The outcome that the words give, if they give one.
pub fn outcome_said(said: Said) -> Option<Outcome>
    ensures { result ≡ outcome_said said }
{
    match said {
        Said::Deployment(word) => outcome_of_deployment(word),
        Said::Cancel(word) => outcome_of_cancel(word),
    }
}

/// Whether what is said counts as a note: a deployment's word that ends nothing, or a note on a cancel.
pub fn says_note(said: Said) -> bool
    ensures { result ≡ says_note said }
{
    match said {
        Said::Deployment(word) => outcome_of_deployment(word).is_none(),
        Said::Cancel(CancelWord::Noted(_)) => true,
        Said::Cancel(_) => false,
    }
}
