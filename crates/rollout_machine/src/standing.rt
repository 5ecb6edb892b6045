//! How a report stands among those before it.

/// How a device's report stands among what its action has heard, by its number.
#[derive(Clone, Copy)]
pub enum Standing {
    /// It has no number, or a greater one than all before it.
    Fresh,
    /// It is the one of the greatest number, sent again.
    Again,
    /// A later one was heard, or another one of its number.
    Old,
}
