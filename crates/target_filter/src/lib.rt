//! Filters over targets: reading their texts, and asking whether a target matches.
//!
//! A filter is written as `tag==lab;name!=x*,controllerid==dev-0*`: comparisons of a field with a
//! pattern, joined by `;` (and) and `,` (or). [`Filter::read`] takes exactly the texts of the grammar
//! in `specs/Grammar.antt` that have at most 512 bytes and nest parentheses at most 16 deep, and
//! [`Filter::matches`] is the meaning of `specs/Meaning.antt`.
#![tactic(auto)]

mod byte_kind;
mod comparison;
mod fault;
mod filter_text;
pub mod laws;
mod parser;
mod pattern;
mod scanner;
mod tree;

pub use fault::FilterFault;
pub use filter_text::Filter;
