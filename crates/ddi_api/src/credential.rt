//! Who a message says that it is from.

ghost use Rattle.std.specs.Prelude.{◌≡◌, codes, option_and_then, option_map};
ghost use Rattle.http_wire.specs.Fields.{fields_named, value_of_one};
ghost use Rattle.http_wire.specs.Inbox.{message_of};
ghost use Rattle.mgmt_api.specs.Reading.{path_word};
ghost use Rattle.ddi_api.specs.Credentials.{after_scheme, credential_of, digest_of_value};

use crate::spelled::{read_id, read_token};
use artifact_pieces::describe;
use http_wire::{Message, sole_value};
use request_target::segment_at;
use rollout_model::{ControllerId, Credential, Digest};

/// What follows the scheme and one space.
fn after_scheme(value: &[u8]) -> Option<&[u8]>
    ensures { option_map (λ s. s.now) result ≡ after_scheme value.now }
{
    value.strip_prefix(b"TargetToken ")
}

/// The value of the one field `authorization`; `None` where there is none, or more than one.
fn authorization_of<'a>(message: &Message<'a>) -> Option<&'a [u8]>
    ensures { option_map (λ s. s.now) result ≡ value_of_one (fields_named (codes "authorization") (message_of message.now).fields) }
{
    sole_value(message.fields(), b"authorization")
}

/// The digest of the token that such a value shows. The token itself is kept nowhere.
fn digest_of_value(value: &[u8]) -> Option<Digest>
    ensures { result ≡ digest_of_value value.now }
{
    let shown = after_scheme(value)?;
    let token = read_token(shown)?;
    let description = describe(token.as_bytes());
    Some(description.digest)
}

fn digest_shown(message: &Message<'_>) -> Option<Digest>
    ensures { result ≡ option_and_then digest_of_value (value_of_one (fields_named (codes "authorization") (message_of message.now).fields)) }
{
    let value = authorization_of(message)?;
    digest_of_value(value)
}

/// The id in the fifth segment of the path, the empty one before the first slash counted too.
fn controller_in(message: &Message<'_>) -> Option<ControllerId>
    ensures { result ≡ path_word (message_of message.now) 4 }
{
    let segment = segment_at(message.path(), 4)?;
    read_id(segment)
}

/// Who the device says it is, by its path and its authorization; `None` where either breaks its form.
pub fn read_credential(message: &Message<'_>) -> Option<Credential>
    ensures { result ≡ credential_of (message_of message.now) }
{
    let id = controller_in(message)?;
    let digest = digest_shown(message)?;
    Some(Credential { id, digest })
}
