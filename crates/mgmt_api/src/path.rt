//! What stands in a path, and whether there is a query.

ghost use Rattle.std.specs.Prelude.{◌≡◌, slice_get, option_and_then, option_map};
ghost use Rattle.rollout_model.specs.Rules.{kept_if, is_word};
ghost use Rattle.http_wire.specs.Inbox.{message_of};
ghost use Rattle.mgmt_api.specs.Reading.{TakesNoQuery, item_in, path_word};
ghost use Rattle.http_wire.specs.Targets.{path_of};
ghost use Rattle.request_target.specs.Numbers.{decimal_number};
ghost use Rattle.request_target.specs.Routes.{segments};

use http_wire::Message;
use request_target::{number_at, segment_at, takes_query};
use rollout_model::{ControllerId, Number, Refusal, RolloutNo, Word};
use std::alloc::Global;
use std::str;

/// A call that takes no query is refused where there is one.
pub(crate) fn take_no_query(alloc: Global, message: &Message<'_>) -> Result<(), Refusal>
    ensures { TakesNoQuery (message_of message.now) result }
{
    if takes_query(alloc, &[], message.query())? {
        Ok(())
    } else {
        Err(Refusal::BadRequest)
    }
}

/// The number that the segment at a place writes, the empty one before the first slash at 0.
fn read_path_number(message: &Message<'_>, place: usize) -> Option<u32>
    ensures { result ≡ option_and_then decimal_number (slice_get (segments (path_of (message_of message.now).target)) place) }
{
    number_at(message.path(), place)
}

/// The item whose number stands at a place.
pub(crate) fn read_item<Kind>(message: &Message<'_>, place: usize) -> Option<Number<Kind>>
    ensures { result ≡ item_in (message_of message.now) place }
{
    let number = read_path_number(message, place)?;
    Number::new(number)
}

/// The group whose number stands in the seventh segment: it counts within its rollout.
pub(crate) fn read_group(message: &Message<'_>) -> Option<u32>
    ensures { result ≡ item_in (message_of message.now) 6 }
{
    let number: RolloutNo = read_item(message, 6)?;
    Some(number.get())
}

/// The text of the segment at a place; `None` where there is none, or it is no UTF-8.
fn text_in<'a>(message: &'a Message<'_>, place: usize) -> Option<&'a str>
    ensures { option_and_then (kept_if is_word) (option_map (λ s. s.now) result) ≡ path_word (message_of message.now) place }
{
    let segment = segment_at(message.path(), place)?;
    let Ok(text) = str::from_utf8(segment) else {
        return None;
    };
    Some(text)
}

/// The target whose id stands in the fifth segment.
pub(crate) fn read_target_id(message: &Message<'_>) -> Option<ControllerId>
    ensures { result ≡ path_word (message_of message.now) 4 }
{
    let text = text_in(message, 4)?;
    ControllerId::read(text)
}

/// The tag that stands in the seventh segment.
pub(crate) fn read_tag(message: &Message<'_>) -> Option<Word>
    ensures { result ≡ path_word (message_of message.now) 6 }
{
    let text = text_in(message, 6)?;
    Word::read(text)
}
