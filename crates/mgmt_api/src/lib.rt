//! The management interface: what a message asks, and the text of each reply.
//!
//! A message is refused by the first of these that applies: its path has no route, its method is not one of the route's,
//! a number in its path is none that an item can have, its query is not one of the call's, its body is not one of the call's.
#![tactic(auto)]

mod call;
mod cancel_query;
mod laws;
mod page_query;
mod path;
mod reading;
mod reply;
mod rollout_reading;
mod routes;
mod target_query;
mod turn;
mod upload_query;

pub use call::{ManageCall, call_of};
pub use laws::{manage_routes_are_apart, refused_text, worked_module_added};
pub use reading::{read_file, read_manage};
pub use reply::{manage_reply, manage_reply_to};
pub use routes::{ManageRoute, ManageRoutes};
pub use turn::RolloutTurn;
