//! Answers the messages of a byte stream from a desk, over any reader and writer, and any desk that answers requests.
#![tactic(auto)]

mod answer;
mod bytes;
mod connections;
mod download;
mod interface;
mod listening;
mod reply;
mod routes;
mod served;
mod serving;
mod stream;

pub use crate::connections::{Arrival, Connections, TcpConnections};
pub use crate::interface::Interface;
pub use crate::listening::{ListenFault, serve_on};
pub use crate::reply::send;
pub use crate::served::{ServeFault, Served};
pub use crate::serving::serve;
pub use http_wire::End;
pub use request_handler::{ContentsHandler, Handler};
