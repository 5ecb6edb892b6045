//! Whether a cancel is forced.

ghost use Rattle.std.specs.Prelude.{◌≡◌, codes, map, option_map};
ghost use Rattle.request_target.specs.Pairs.{seen};
ghost use Rattle.mgmt_objects.specs.Readings.{ReadsAs};
ghost use Rattle.mgmt_api.specs.CancelQueries.{force_asked, truth_or_false};
ghost use Rattle.request_target.specs.Queries.{value_of};

use request_target::{read_query, value_of};
use rollout_model::Refusal;
use std::alloc::Global;

/// `true` or `false`, which it is where there is no text.
fn truth_or_false(text: Option<&str>) -> Option<bool>
    ensures { result ≡ truth_or_false (option_map (λ s. s.now) text.entry) }
{
    match text {
        None => Some(false),
        Some("true") => Some(true),
        Some("false") => Some(false),
        Some(_) => None,
    }
}

fn force_of(pairs: &[(String, String)]) -> Option<bool>
    ensures { result ≡ truth_or_false (value_of (codes "force") (map seen pairs.now)) }
{
    truth_or_false(value_of(pairs, "force"))
}

/// Whether a cancel is forced: by `force`, `true` or `false`; it isn't where that isn't given.
pub(crate) fn read_force(alloc: Global, query: &[u8]) -> Result<bool, Refusal>
    ensures { ReadsAs (force_asked query.now) result }
{
    let keys = ["force"];
    let Some(pairs) = read_query(alloc, &keys, query)? else {
        return Err(Refusal::BadRequest);
    };
    match force_of(&pairs) {
        Some(force) => Ok(force),
        None => Err(Refusal::BadRequest),
    }
}
