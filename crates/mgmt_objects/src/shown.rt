//! What a reply shows, and lists of it.

ghost use Rattle.std.specs.Prelude.{◌≡◌, false, map, IfOk, string_bytes};
ghost use Rattle.serde_json.specs.Data.{Data, array};
ghost use Rattle.serde_json.specs.View.{view, items_of};
ghost use Rattle.serde_json.specs.Written.{has_float, compact_text};
ghost use Rattle.mgmt_objects.specs.Pages.{single, page_data};

use serde_json::{Value, json};
use std::alloc::{AllocError, Global};

/// A record that a reply shows as an object.
pub trait Shown: Sized {
    ghost shows: { Self → Data };

    ghost has_no_float: { (s : Self) → has_float (shows s) ≡ false };

    /// The record's object.
    fn value(&self, alloc: Global) -> Result<Value, AllocError>
        ensures { IfOk result (λ v. view v ≡ shows self.now) };
}

/// The text of a record's object.
pub fn object_text<T: Shown>(alloc: Global, shown: &T) -> Result<String, AllocError>
    ensures { IfOk result (λ s. string_bytes s ≡ compact_text (T.shows shown.now)) }
{
    let value = shown.value(alloc)?;
    value.to_string(alloc)
}

pub(crate) fn values<T: Shown>(alloc: Global, records: &[T]) -> Result<Vec<Value>, AllocError>
    ensures { IfOk result (λ v. map view v.items ≡ map T.shows records.now) }
{
    let mut values = Vec::new(alloc);
    for shown in records {
        let value = shown.value(alloc)?;
        values.push(value)?;
    }
    Ok(values)
}

/// The text of an array of records.
pub fn array_text<T: Shown>(alloc: Global, records: &[T]) -> Result<String, AllocError>
    ensures { IfOk result (λ s. string_bytes s ≡ compact_text (array (items_of (map T.shows records.now)))) }
{
    let values = values(alloc, records)?;
    let list = Value::Array(values);
    list.to_string(alloc)
}

/// The text of the array of one record.
pub fn single_text<T: Shown>(alloc: Global, shown: &T) -> Result<String, AllocError>
    ensures { IfOk result (λ s. string_bytes s ≡ compact_text (single (T.shows shown.now))) }
{
    let value = shown.value(alloc)?;
    let list = json!(in alloc; [value])?;
    list.to_string(alloc)
}

fn page_value(alloc: Global, content: Vec<Value>, total: u32) -> Result<Value, AllocError>
    ensures { IfOk result (λ v. view v ≡ page_data (map view content.items) total) }
{
    let size = content.len();
    json!(in alloc; {
        "content": Value::Array(content),
        "size": size,
        "total": total,
    })
}

/// The text of a page of records, of so many in all.
pub fn page_text<T: Shown>(alloc: Global, records: &[T], total: u32) -> Result<String, AllocError>
    ensures { IfOk result (λ s. string_bytes s ≡ compact_text (page_data (map T.shows records.now) total)) }
{
    let values = values(alloc, records)?;
    let page = page_value(alloc, values, total)?;
    page.to_string(alloc)
}
