//! What is done for each of the program's orders on a machine.
#![tactic(auto)]

mod after_crash;
mod carrying;
mod host;
mod import;
mod program;
mod report;
mod telling;
mod verify;

pub use crate::after_crash::headline_after_crash;
pub use crate::carrying::{CarriedOut, carry_out};
pub use crate::host::Host;
pub use command_line::{Order, Setup, read_order};
pub use stream_server::{
    Connections, ContentsHandler, End, Handler, Interface, ListenFault, ServeFault, Served,
    TcpConnections, serve, serve_on,
};
