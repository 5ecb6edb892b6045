//! Messages and faults as an inbox hands them out.

use http_wire::{End, Inbox, Message, path_of, query_of, reading_of, sole_value};
use rollout_model::Refusal;
use std::alloc::Global;

const ADD: &[u8] =
    b"POST /rest/v1/softwaremodules HTTP/1.1\r\nContent-Length: 44\r\n\r\n[{\"name\":\"app\",\"type\":\"os\",\"version\":\"1.0\"}]";

const MODULE: &[u8] = b"[{\"name\":\"app\",\"type\":\"os\",\"version\":\"1.0\"}]";

/// What is handed out next: how many bytes the body of a message has, or the refusal of a fault.
type Next = Option<Result<usize, Refusal>>;

fn next_of(inbox: &mut Inbox) -> Next {
    match inbox.next()? {
        Ok(message) => Some(Ok(message.body.len())),
        Err(fault) => Some(Err(fault.refusal())),
    }
}

fn is_add(message: &Message<'_>) -> bool {
    message.method == b"POST".as_slice()
        && message.path() == b"/rest/v1/softwaremodules".as_slice()
        && message.fields().len() == 1
        && message.body == MODULE
}

fn gives_add(inbox: &mut Inbox) -> bool {
    match inbox.next() {
        Some(Ok(message)) => is_add(&message),
        _ => false,
    }
}

#[test]
fn two_messages_at_once(rt: HostRuntime) {
    let mut inbox = Inbox::new(rt.alloc());
    assert!(rt; inbox.feed(ADD).is_ok());
    assert!(rt; inbox.feed(ADD).is_ok());
    assert!(rt; gives_add(&mut inbox));
    assert!(rt; gives_add(&mut inbox));
    assert!(rt; next_of(&mut inbox).is_none());
    assert!(rt; inbox.is_empty());
}

/// After how many of these bytes, one by one, an inbox first hands out something.
fn first_after(inbox: &mut Inbox, bytes: &[u8]) -> usize {
    let mut count: usize = 0;
    for byte in bytes {
        count = count.saturating_add(1);
        if inbox.feed(&[*byte]).is_err() || next_of(inbox).is_some() {
            return count;
        }
    }
    0
}

#[test]
fn a_message_byte_by_byte(rt: HostRuntime) {
    let mut inbox = Inbox::new(rt.alloc());
    assert!(rt; first_after(&mut inbox, ADD) == ADD.len());
    assert!(rt; first_after(&mut inbox, ADD) == ADD.len());
}

/// A wrong head for each fault.
const WRONG: [(&[u8], Refusal); 4] = [
    (
        b"GET / HTTP/1.1\r\nContent-Length: 99999999\r\n\r\n",
        Refusal::TooLarge,
    ),
    (b"GET  /a HTTP/1.1\r\n\r\n", Refusal::BadHead),
    (
        b"GET / HTTP/1.1\r\nContent-Length: +3\r\n\r\n",
        Refusal::BadLength,
    ),
    (
        b"GET / HTTP/1.1\r\nTransfer-Encoding: chunked\r\n\r\n",
        Refusal::BadCoding,
    ),
];

/// Whether a wrong head behind a message is this fault, and still is once more came; `None` for want of memory.
fn stays_wrong(alloc: Global, head: &[u8], refusal: Refusal) -> Option<bool> {
    let mut inbox = Inbox::new(alloc);
    inbox.feed(ADD).ok()?;
    inbox.feed(head).ok()?;
    let is_first = next_of(&mut inbox) == Some(Ok(44)) && next_of(&mut inbox) == Some(Err(refusal));
    inbox.feed(ADD).ok()?;
    Some(is_first && next_of(&mut inbox) == Some(Err(refusal)))
}

/// Whether a stream has so many messages and ends with a fault, or where there is none, within a message or not.
fn is_read(stream: &[u8], messages: usize, fault: Option<Refusal>, is_cut: bool) -> bool {
    let reading = reading_of(stream);
    reading.messages == messages
        && match reading.end {
            End::Input => fault.is_none() && !is_cut,
            End::Cut => fault.is_none() && is_cut,
            End::Fault(told) => fault == Some(told.refusal()),
        }
}

#[test]
fn faults_last(rt: HostRuntime) {
    for (head, refusal) in WRONG {
        assert!(rt; stays_wrong(rt.alloc(), head, refusal) == Some(true));
        assert!(rt; is_read(head, 0, Some(refusal), false));
    }
}

#[test]
fn a_head_at_its_limit(rt: HostRuntime) {
    let almost = [b'x'; 8191];
    let mut inbox = Inbox::new(rt.alloc());
    assert!(rt; inbox.feed(&almost).is_ok());
    assert!(rt; next_of(&mut inbox).is_none());
    assert!(rt; inbox.feed(b"x").is_ok());
    assert!(rt; next_of(&mut inbox) == Some(Err(Refusal::HeadTooLarge)));
    assert!(rt; is_read(&almost, 0, None, true));
    assert!(rt; is_read(ADD, 1, None, false));
}

/// The head of a message with so many fields; `None` for want of memory.
fn with_fields(alloc: Global, count: u32) -> Option<Vec<u8>> {
    let mut head = Vec::from_slice(alloc, b"GET / HTTP/1.1\r\n").ok()?;
    for _ in 0..count {
        head.extend_from_slice(b"a:\r\n").ok()?;
    }
    head.extend_from_slice(b"\r\n").ok()?;
    Some(head)
}

/// How many fields the message of such a head has; `None` where there is none.
fn fields_of(alloc: Global, count: u32) -> Option<usize> {
    let head = with_fields(alloc, count)?;
    let mut inbox = Inbox::new(alloc);
    inbox.feed(&head).ok()?;
    let message = inbox.next()?.ok()?;
    Some(message.fields().len())
}

#[test]
fn thirty_two_fields(rt: HostRuntime) {
    assert!(rt; fields_of(rt.alloc(), 32) == Some(32));
    assert!(rt; fields_of(rt.alloc(), 33).is_none());
}

const POLL: &[u8] =
    b"GET /a/b?offset=1?&x HTTP/1.1\r\nAUTHORIZATION: \t TargetToken tok-dev-01 \r\nA: 1\r\na: 2\r\n\r\n";

fn is_target_split(message: &Message<'_>) -> bool {
    message.target == b"/a/b?offset=1?&x".as_slice()
        && message.path() == b"/a/b".as_slice()
        && message.query() == b"offset=1?&x".as_slice()
}

/// Whether the one field of a name has its value in any case, and one that is there twice or not at all has none.
fn are_values_sole(message: &Message<'_>) -> bool {
    let fields = message.fields();
    sole_value(fields, b"authorization") == Some(b"TargetToken tok-dev-01".as_slice())
        && sole_value(fields, b"A").is_none()
        && sole_value(fields, b"host").is_none()
}

#[test]
fn parts_of_a_message(rt: HostRuntime) {
    let mut inbox = Inbox::new(rt.alloc());
    assert!(rt; inbox.feed(POLL).is_ok());
    match inbox.next() {
        Some(Ok(message)) => {
            assert!(rt; is_target_split(&message));
            assert!(rt; are_values_sole(&message));
        }
        _ => assert!(rt; false, "a message"),
    }
    assert!(rt; path_of(b"/a") == b"/a".as_slice());
    assert!(rt; query_of(b"/a") == b"".as_slice());
}
