//! The head of a message, in its one strict form (RFC 9112, sections 3 and 5).
ghost use Rattle.std.specs.Prelude.{◌≡◌, ℕ, ◌≤◌, ◌↔◌, ◌==◌, true, List, length, slice_index, codes, IsTrue, IfSome, IfNone};
ghost use Rattle.std.specs.List.{list_all, list_any};
ghost use Rattle.std.specs.Int.{is_in_range};
ghost use Rattle.http_wire.specs.Regions.{HasFewFields};
ghost use Rattle.http_wire.specs.Heads.{HeadParts, IsOriginForm, SpellsHead, is_target_byte};
ghost use Rattle.http_wire.specs.private.Parse.{lf_follows_cr, is_no_line_break, IsStrict, IsHeadAt};
ghost use Rattle.httparse.specs.Spans.{IsWithin};

use httparse::Status;
use httparse::spans::{EMPTY_HEADER_SPAN, HeaderSpan, RequestSpans, Span, parse_request};
use rollout_model::limits::FIELD_LIMIT;

/// Where the parts of a head are.
#[derive(Clone, Copy)]
pub(crate) struct HeadSpans {
    pub(crate) method: Span,
    pub(crate) target: Span,
    pub(crate) fields: [HeaderSpan; FIELD_LIMIT],
    pub(crate) field_count: usize,
}

/// Whether a byte is one of those from the first to the last.
fn is_between(first: u8, last: u8, b: u8) -> bool
    ensures { result ≡ is_in_range first last b }
{
    (first <= b) & (b <= last)
}

/// The marks of a target that no range of its bytes has.
fn is_lone_mark(b: u8) -> bool
    ensures { result ≡ list_any (λ c. c == b) (codes "!=_~") }
{
    matches!(b, b'!' | b'=' | b'_' | b'~')
}

#[tactic(auto, using(crate::proofs::HeadLemmas::is_target_byte_by_ranges))]
fn is_target_byte(b: u8) -> bool
    ensures { result ≡ is_target_byte b }
{
    is_between(b'a', b'z', b)
        | is_between(b'?', b'Z', b)
        | is_between(b'$', b';', b)
        | is_lone_mark(b)
}

/// Whether each byte may stand in a target. It goes on after one that may not, so that a compiler can test many at once.
fn are_target_bytes(bytes: &[u8]) -> bool
    ensures { result ≡ list_all is_target_byte bytes.now }
{
    let mut all = true;
    for b in bytes {
        all &= is_target_byte(*b);
    }
    all
}

fn is_origin_form(target: &[u8]) -> bool
    ensures { IsTrue result ↔ IsOriginForm target.now }
{
    target.first() == Some(&b'/') && are_target_bytes(target)
}

/// Whether no empty line comes first.
fn has_first_line(region: &[u8]) -> bool
    ensures { result ≡ is_no_line_break (slice_index region.now 0) }
{
    match region.first() {
        Some(first) => *first != b'\r' && *first != b'\n',
        None => true,
    }
}

/// Whether the head is all of the region, in HTTP/1.1 and with a target in origin form.
fn is_strict(region: &[u8], head: &RequestSpans) -> bool
    requires { IsWithin (length region.now) head.now.path }
    ensures { IsTrue result ↔ IsStrict region.now head.now }
{
    head.len == region.len() && head.version == 1 && is_origin_form(head.path.of(region))
}

/// The parts of the head, if the region, in which each LF follows a CR, has the form of one.
pub(crate) fn parse_head(region: &[u8]) -> Option<HeadSpans>
    requires few { HasFewFields region.now }
    requires pairs { lf_follows_cr 0 region.now ≡ true }
    ensures found { IfSome result (IsHeadAt region.now) }
    ensures none { IfNone result ((h : HeadParts) → SpellsHead region.now h → ⊥) }
{
    if !has_first_line(region) {
        return None;
    }
    let mut fields = [EMPTY_HEADER_SPAN; FIELD_LIMIT];
    let head = match parse_request(region, &mut fields) {
        Ok(Status::Complete(head)) => head,
        Ok(Status::Partial) => return None,
        Err(_) => return None,
    };
    if !is_strict(region, &head) {
        return None;
    }
    Some(HeadSpans {
        method: head.method,
        target: head.path,
        fields,
        field_count: head.headers,
    })
}
