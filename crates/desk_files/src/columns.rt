//! Numbers in columns.

ghost use Rattle.std.specs.Prelude.{◌≡◌, ◌++◌, replicate, string_bytes, OnOk};
ghost use Rattle.desk_files.specs.Columns.{right};

use std::alloc::{AllocError, Global};

fn push_spaces(text: &mut String, count: usize) -> Result<(), AllocError>
    ensures { OnOk result (string_bytes text.new ≡ string_bytes text.old ++ replicate count 32) }
{
    for _ in 0..count {
        text.push(' ')?;
    }
    Ok(())
}

/// Adds the number on the right of so many places; one that has more digits is written whole.
pub(crate) fn push_right(
    alloc: Global,
    text: &mut String,
    places: usize,
    number: u128,
) -> Result<(), AllocError>
    ensures { OnOk result (string_bytes text.new ≡ string_bytes text.old ++ right places number) }
{
    let digits = format!(in alloc; "{number}")?;
    push_spaces(text, places.saturating_sub(digits.len()))?;
    text.push_str(digits.as_str())?;
    Ok(())
}
