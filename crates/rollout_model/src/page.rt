//! Pages of lists.

/// The part of a list that is asked for.
#[derive(Clone, Copy)]
pub struct Page {
    /// How many entries come before it.
    pub offset: u32,
    /// How many entries it has at most.
    pub limit: u32,
}

/// A part of a list, and how many entries the whole has.
#[derive(Drop)]
pub struct PageOf<T> {
    pub content: Vec<T>,
    pub total: u32,
}
