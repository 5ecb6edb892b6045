//! The device interface: what a device's message asks, and the text of each reply.
//!
//! A message is refused by the first of these that applies: its path has no route, its method is not the route's, the device does
//! not say who it is in the one form, a number or a filename in the path is none, its query is not empty, its body is not one of the call's.
#![tactic(auto)]

mod call;
mod config_body;
mod credential;
mod feedback_body;
pub mod laws;
mod object;
mod reading;
mod reply;
mod routes;
mod spelled;

pub use call::{DeviceCall, method_of};
pub use credential::read_credential;
pub use reading::read_device;
pub use reply::device_reply;
pub use routes::DeviceRoutes;
