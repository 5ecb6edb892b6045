//! The bytes of replies.
ghost use Rattle.std.specs.Prelude.{◌≡◌, ◌≤◌, ◌++◌, [], codes, if◌then◌else◌, length, IfOk, IfErr};
ghost use Rattle.http.specs.StatusCode.{code_digits};
ghost use Rattle.http_wire.specs.Replies.{content_type_text, reason, reply_head, answer_text, refusal_body, refusal_text};
ghost use Rattle.http_wire.specs.Replies.{TellsOf, Json};
ghost use Rattle.rollout_model.specs.declared.Refusal.TheVariants.{NoMemory};
ghost use Rattle.rollout_model.specs.Refusals.{refusal_row};

use crate::fixed_text::FixedText;
use http::StatusCode;
use rollout_model::Refusal;
use std::alloc::{AllocError, Global};

/// What a body is.
#[derive(Clone, Copy)]
pub enum ContentType {
    /// `application/json`
    Json,
    /// `application/octet-stream`
    Octets,
    /// `text/plain; charset=utf-8`
    Text,
    /// `text/csv; charset=utf-8`
    Csv,
}

/// What answers a message: its status, and a body with its type.
#[derive(Drop)]
pub struct Answer {
    pub status: StatusCode,
    pub content_type: ContentType,
    pub body: Vec<u8>,
}

fn content_type_text(content_type: ContentType) -> &'static str
    ensures text { result.now ≡ content_type_text content_type }
    ensures short { length result.now ≤ 25 }
{
    match content_type {
        ContentType::Json => "application/json",
        ContentType::Octets => "application/octet-stream",
        ContentType::Text => "text/plain; charset=utf-8",
        ContentType::Csv => "text/csv; charset=utf-8",
    }
}

fn close_line(ends: bool) -> &'static str
    ensures text { result.now ≡ (if ends then codes "Connection: close\r\n" else []) }
    ensures short { length result.now ≤ 19 }
{
    if ends { "Connection: close\r\n" } else { "" }
}

#[tactic(auto, unfolding(crate::specs::Replies::reason))]
fn reason(status: StatusCode) -> &'static str
    ensures { result.now ≡ reason status }
{
    status.canonical_reason().unwrap_or("")
}

#[tactic(auto, using(crate::proofs::ReplyLemmas::reason_short))]
fn status_line(status: StatusCode) -> FixedText
    ensures text { result ≡ codes "HTTP/1.1 " ++ code_digits status ++ codes " " ++ reason status }
    ensures short { length result ≤ 44 }
{
    let mut line = FixedText::new();
    line.push(b"HTTP/1.1 ");
    line.push(status.as_str().as_bytes());
    line.push(b" ");
    line.push(reason(status).as_bytes());
    line
}

/// The status line, the fields and the empty line.
fn reply_head(status: StatusCode, content_type: ContentType, ends: bool, size: u64) -> FixedText
    ensures text { result ≡ reply_head status content_type ends size }
    ensures short { length result ≤ 146 }
{
    let mut head = status_line(status);
    head.push(b"\r\nContent-Type: ");
    head.push(content_type_text(content_type).as_bytes());
    head.push(b"\r\nContent-Length: ");
    head.push_number(size);
    head.push(b"\r\n");
    head.push(close_line(ends).as_bytes());
    head.push(b"\r\n");
    head
}

/// The bytes of an answer, after which the connection goes on. Refused for want of memory alone.
pub fn reply_bytes(alloc: Global, answer: &Answer) -> Result<Vec<u8>, Refusal>
    ensures bytes { IfOk result (λ bytes. bytes.items ≡ answer_text answer.now) }
    ensures memory { IfErr result (λ refusal. refusal ≡ NoMemory) }
{
    let size = answer.body.len() as u64;
    let head = reply_head(answer.status, answer.content_type, false, size);
    let mut bytes = Vec::with_capacity(alloc, head.as_bytes().len() + answer.body.len())?;
    bytes.extend_from_slice(head.as_bytes())?;
    bytes.extend_from_slice(&answer.body)?;
    Ok(bytes)
}

/// The object that says why, with the line of an import that is refused.
#[tactic(auto, using(crate::proofs::ReplyLemmas::good_row))]
fn refusal_body(refusal: Refusal) -> FixedText
    ensures text { result ≡ refusal_body refusal }
    ensures short { length result ≤ 85 }
{
    let mut body = FixedText::new();
    body.push(b"{\"error\":\"");
    body.push(refusal.name().as_bytes());
    body.push(b"\"");
    if let Refusal::BadImportLine(line) = refusal {
        body.push(b",\"line\":");
        body.push_number(line);
    }
    body.push(b",\"number\":");
    body.push_number(u64::from(refusal.number()));
    body.push(b"}");
    body
}

#[tactic(auto, using(crate::proofs::ReplyLemmas::good_row))]
fn refusal_status(refusal: Refusal) -> StatusCode
    ensures { result ≡ (refusal_row refusal).status }
{
    StatusCode::from_u16(refusal.status()).unwrap_or(StatusCode::INTERNAL_SERVER_ERROR)
}

/// What answers a refused message on a connection that goes on: the status of the refusal's row and the object that says why.
#[tactic(auto)]
pub fn refusal_answer(alloc: Global, refusal: Refusal) -> Result<Answer, AllocError>
    ensures { IfOk result (TellsOf refusal) }
{
    let body = Vec::from_slice(alloc, refusal_body(refusal).as_bytes())?;
    Ok(Answer {
        status: refusal_status(refusal),
        content_type: ContentType::Json,
        body,
    })
}

/// The bytes of a refusal, whole, by its row of the table of refusals. It takes no memory.
#[tactic(auto, unfolding(crate::specs::Replies::refusal_text))]
pub fn refusal_bytes(refusal: Refusal) -> FixedText
    ensures { result ≡ refusal_text refusal }
{
    let body = refusal_body(refusal);
    let size = body.as_bytes().len() as u64;
    let mut bytes = reply_head(
        refusal_status(refusal),
        ContentType::Json,
        refusal.ends(),
        size,
    );
    bytes.push(body.as_bytes());
    bytes
}
