//! What a request target says: the route of its path, and the pairs of its query.
//!
//! `matchit` finds the route of a path. Above its own contract stands a theorem in the words of paths alone: the route
//! that is found is the one whose segments stand for the path's, one by one.
#![tactic(auto)]

mod numbers;
mod pairs;
mod path_segments;
mod query;
mod routes;

pub use numbers::read_number;
pub use pairs::read_pairs;
pub use path_segments::{number_at, segment_at};
pub use query::{are_clean, number_or, read_query, takes_query, value_of};
pub use routes::{route_of, router_of};
