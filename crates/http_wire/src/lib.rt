//! HTTP/1.1 messages of a byte stream that comes in any pieces, and the bytes of replies (RFC 9112, in one strict form).
//!
//! An [`Inbox`] is fed what comes and hands out each message as soon as it is whole. [`reply_bytes`] and
//! [`refusal_bytes`] make what is sent back. A [`Watched`] reader or writer remembers whether a call of it failed.
#![tactic(auto)]

mod body_length;
mod fault;
mod fields;
mod fixed_text;
mod head;
mod inbox;
mod message;
mod region;
mod reply;
mod stream;
mod target;
mod watched;

pub use crate::fault::WireFault;
pub use crate::fields::sole_value;
pub use crate::fixed_text::FixedText;
pub use crate::inbox::Inbox;
pub use crate::message::{Field, Message};
pub use crate::reply::{Answer, ContentType, refusal_answer, refusal_bytes, reply_bytes};
pub use crate::stream::{End, Reading, line_ends_are_lines, one_reading, reading_of};
pub use crate::target::{path_of, query_of};
pub use crate::watched::{Cut, Watched, write_all_counted};
