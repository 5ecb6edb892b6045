//! The page that a query asks for.

ghost use Rattle.std.specs.Prelude.{◌≡◌, [], ◌∷◌, codes, map, option_and_then};
ghost use Rattle.request_target.specs.Pairs.{seen};
ghost use Rattle.mgmt_objects.specs.Readings.{ReadsAs};
ghost use Rattle.mgmt_api.specs.PageQueries.{query_page};
ghost use Rattle.request_target.specs.Queries.{number_or, query_pairs_of, value_of};
ghost use Rattle.rollout_model.specs.Limits.{limits};

use request_target::{number_or, read_query, value_of};
use rollout_model::limits::{NUMBER_LIMIT, PAGE_DEFAULT, PAGE_LIMIT};
use rollout_model::{Page, Refusal};
use std::alloc::Global;

fn offset_of(pairs: &[(String, String)]) -> Option<u32>
    ensures { result ≡ number_or 0 limits.number 0 (value_of (codes "offset") (map seen pairs.now)) }
{
    number_or(0, NUMBER_LIMIT, 0, value_of(pairs, "offset"))
}

fn limit_of(pairs: &[(String, String)]) -> Option<u32>
    ensures { result ≡ number_or 1 limits.page limits.page_default (value_of (codes "limit") (map seen pairs.now)) }
{
    number_or(1, PAGE_LIMIT, PAGE_DEFAULT, value_of(pairs, "limit"))
}

pub(crate) fn page_of(pairs: &[(String, String)]) -> Option<Page>
    ensures { result ≡ query_page (map seen pairs.now) }
{
    let offset = offset_of(pairs)?;
    let limit = limit_of(pairs)?;
    Some(Page { offset, limit })
}

/// The page that a query asks for: `offset` from 0 to 2,147,483,647, 0 where it isn't given, and `limit` from 1 to 500, or 50.
pub(crate) fn read_page(alloc: Global, query: &[u8]) -> Result<Page, Refusal>
    ensures { ReadsAs (option_and_then query_page (query_pairs_of (codes "offset" ∷ codes "limit" ∷ []) query.now)) result }
{
    let keys = ["offset", "limit"];
    let Some(pairs) = read_query(alloc, &keys, query)? else {
        return Err(Refusal::BadRequest);
    };
    match page_of(&pairs) {
        Some(page) => Ok(page),
        None => Err(Refusal::BadRequest),
    }
}
