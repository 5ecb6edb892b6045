//! The targets that a query asks for.

ghost use Rattle.std.specs.Prelude.{◌≡◌, codes, IfOk, map, option_map};
ghost use Rattle.request_target.specs.Pairs.{seen};
ghost use Rattle.mgmt_objects.specs.Readings.{ReadsAs};
ghost use Rattle.mgmt_api.specs.TargetQueries.{selection_asked};
ghost use Rattle.mgmt_api.specs.PageQueries.{query_page};
ghost use Rattle.request_target.specs.Queries.{value_of};

use crate::page_query::page_of;
use request_target::{read_query, value_of};
use rollout_model::{FilterText, Page, Refusal};
use std::alloc::{AllocError, Global};

/// A page of the targets that match a filter, or of all where none is given.
#[derive(Drop)]
pub(crate) struct Selection {
    pub(crate) filter_text: Option<FilterText>,
    pub(crate) page: Page,
}

/// The text of `q`: any text, an empty one too.
fn filter_given(alloc: Global, pairs: &[(String, String)]) -> Result<Option<FilterText>, AllocError>
    ensures { IfOk result (λ given. given ≡ value_of (codes "q") (map seen pairs.now)) }
{
    match value_of(pairs, "q") {
        None => Ok(None),
        Some(text) => {
            let filter = FilterText::from_text(alloc, text)?;
            Ok(Some(filter))
        }
    }
}

fn selection_of(alloc: Global, pairs: &[(String, String)]) -> Result<Selection, Refusal>
    ensures { ReadsAs (option_map (λ page. record { filter_text = value_of (codes "q") (map seen pairs.now); page = page })
        (query_page (map seen pairs.now))) result }
{
    let Some(page) = page_of(pairs) else {
        return Err(Refusal::BadRequest);
    };
    let filter_text = filter_given(alloc, pairs)?;
    Ok(Selection { filter_text, page })
}

/// The targets that a query asks for: a page, as of other lists, and by `q`, where it is given, a filter as it is written.
pub(crate) fn read_selection(alloc: Global, query: &[u8]) -> Result<Selection, Refusal>
    ensures { ReadsAs (selection_asked query.now) result }
{
    let keys = ["offset", "limit", "q"];
    let Some(pairs) = read_query(alloc, &keys, query)? else {
        return Err(Refusal::BadRequest);
    };
    selection_of(alloc, &pairs)
}
