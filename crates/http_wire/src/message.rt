//! A message whose parts are borrowed.
ghost use Rattle.std.specs.Prelude.{◌≡◌, ◌≤◌, Ok, length, take, map, All, IfOk, IfErr};
ghost use Rattle.httparse.specs.Spans.{IsHeaderWithin};
ghost use Rattle.http_wire.specs.BodyLengths.{body_length};
ghost use Rattle.http_wire.specs.Messages.{IsHeadWith, IsBadRegion};
ghost use Rattle.http_wire.specs.Fronts.{StandsFirst};
ghost use Rattle.http_wire.specs.Inbox.{field_view, message_of};
ghost use Rattle.http_wire.specs.private.Parse.{fields_at};

use crate::body_length::body_length;
use crate::fault::WireFault;
use crate::head::{HeadSpans, parse_head};
use crate::region::{line_ends, region_len};
use crate::target::{path_of, query_of};
use rollout_model::limits::{FIELD_LIMIT, HEAD_LENGTH_LIMIT};

/// A name, and its value without the white space around it.
#[derive(Clone, Copy)]
pub struct Field<'a> {
    pub name: &'a [u8],
    pub value: &'a [u8],
}

const EMPTY_FIELD: Field<'static> = Field {
    name: b"",
    value: b"",
};

/// A whole message, whose parts are borrowed from the inbox.
#[derive(Clone, Copy)]
pub struct Message<'a> {
    pub method: &'a [u8],
    pub target: &'a [u8],
    /// What its head says, no more and no less.
    pub body: &'a [u8],
    /// The first `field_count` are the fields.
    fields: [Field<'a>; FIELD_LIMIT],
    field_count: usize,
}

impl<'a> Message<'a> {
    ghost use Rattle.http_wire.specs.Targets as targets;

    /// The fields, in order, at most 32.
    pub fn fields(&self) -> &[Field<'a>]
        ensures { map field_view result.now ≡ (message_of self.now).fields }
    {
        let all = self.fields.as_slice();
        &all[..self.field_count.min(all.len())]
    }

    /// The target up to its first `?`, or all of it.
    pub fn path(&self) -> &'a [u8]
        ensures { result.now ≡ targets.path_of (message_of self.now).target }
    {
        path_of(self.target)
    }

    /// What follows the first `?` of the target, or nothing.
    pub fn query(&self) -> &'a [u8]
        ensures { result.now ≡ targets.query_text (message_of self.now).target }
    {
        query_of(self.target)
    }
}

fn fields_of<'a>(region: &'a [u8], spans: &HeadSpans) -> [Field<'a>; FIELD_LIMIT]
    requires count { spans.now.field_count ≤ length spans.now.fields }
    requires within { All (IsHeaderWithin (length region.now)) (take spans.now.field_count spans.now.fields) }
    ensures { map field_view (take spans.now.field_count result) ≡ fields_at region.now spans.now }
{
    let mut fields = [EMPTY_FIELD; FIELD_LIMIT];
    for i in 0..spans.field_count {
        let at = spans.fields[i];
        fields[i] = Field {
            name: at.name.of(region),
            value: at.value.of(region),
        };
    }
    fields
}

/// The message that a head region begins, without its body, and the body's length.
fn read_region(region: &[u8]) -> Result<(Message<'_>, usize), WireFault>
    ensures head { IfOk result (λ r. let m = message_of r.0 in IsHeadWith region.now m.method m.target m.fields) }
    ensures body { IfOk result (λ r. body_length (message_of r.0).fields ≡ Ok r.1) }
    ensures fault { IfErr result (IsBadRegion region.now) }
{
    let ends = line_ends(region);
    if ends.count > FIELD_LIMIT + 2 {
        return Err(WireFault::HeadTooLarge);
    }
    if !ends.strict {
        return Err(WireFault::BadHead);
    }
    let Some(spans) = parse_head(region) else {
        return Err(WireFault::BadHead);
    };
    let fields = fields_of(region, &spans);
    let body_len = match body_length(&fields[..spans.field_count]) {
        Ok(body_len) => body_len,
        Err(fault) => return Err(fault),
    };
    let message = Message {
        method: spans.method.of(region),
        target: spans.target.of(region),
        fields,
        field_count: spans.field_count,
        body: b"",
    };
    Ok((message, body_len))
}

/// Why no message stands at the front of the bytes.
#[derive(Clone, Copy)]
pub(crate) enum NoMessage {
    AtFault(WireFault),
    /// Too few bytes are there: neither a message nor a fault stands in fewer than so many.
    Wants(usize),
}

/// The message at the front of the bytes, and how many bytes it takes.
pub(crate) fn read_front(bytes: &[u8]) -> Result<(Message<'_>, usize), NoMessage>
    ensures { StandsFirst bytes.now result }
{
    let Some(head_len) = region_len(bytes) else {
        if bytes.len() < HEAD_LENGTH_LIMIT {
            return Err(NoMessage::Wants(bytes.len() + 1));
        }
        return Err(NoMessage::AtFault(WireFault::HeadTooLarge));
    };
    let (region, after) = bytes.split_at(head_len);
    match read_region(region) {
        Err(fault) => Err(NoMessage::AtFault(fault)),
        Ok((head, body_len)) => {
            let len = head_len + body_len;
            if after.len() < body_len {
                return Err(NoMessage::Wants(len));
            }
            let message = Message {
                body: &after[..body_len],
                ..head
            };
            Ok((message, len))
        }
    }
}
