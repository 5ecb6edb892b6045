//! Kinds of bytes, and runs of bytes of one kind.

ghost use Rattle.std.specs.Prelude.{◌≡◌, ◌≤◌, length, take, drop};
ghost use Rattle.rollout_model.specs.Rules.{is_word_letter};
ghost use Rattle.target_filter.specs.Grammar.{is_bare_byte, is_quotable_byte};
ghost use Rattle.target_filter.specs.private.ByteKinds.{is_byte_of};
ghost use Rattle.target_filter.specs.Descent.{front, behind_front};

/// What a field's name or a part of a value is made of.
#[derive(Clone, Copy)]
pub(crate) enum ByteKind {
    /// `A-Z a-z 0-9 . _ -`.
    Letter,
    /// A letter or `*`.
    Bare,
    /// Anything but `"` and control characters.
    Quotable,
}

pub(crate) fn is_word_letter(byte: u8) -> bool
    ensures { result ≡ is_word_letter byte }
{
    byte.is_ascii_alphanumeric() || byte == b'.' || byte == b'_' || byte == b'-'
}

pub(crate) fn is_bare_byte(byte: u8) -> bool
    ensures { result ≡ is_bare_byte byte }
{
    is_word_letter(byte) || byte == b'*'
}

pub(crate) fn is_quotable_byte(byte: u8) -> bool
    ensures { result ≡ is_quotable_byte byte }
{
    byte >= b' ' && byte != b'"' && byte != 127
}

impl ByteKind {
    fn contains(self, byte: u8) -> bool
        ensures { result ≡ is_byte_of self byte }
    {
        match self {
            ByteKind::Letter => is_word_letter(byte),
            ByteKind::Bare => is_bare_byte(byte),
            ByteKind::Quotable => is_quotable_byte(byte),
        }
    }
}

/// How many bytes of the kind stand in front.
fn run_length(kind: ByteKind, text: &[u8]) -> usize
    ensures bound { result ≤ length text.now }
    ensures front { take result text.now ≡ front (is_byte_of kind) text.now }
    ensures behind { drop result text.now ≡ behind_front (is_byte_of kind) text.now }
{
    for (at, byte) in text.iter().enumerate() {
        if !kind.contains(*byte) {
            return at;
        }
    }
    text.len()
}

/// The bytes of the kind in front of the text, and what stands behind them.
pub(crate) fn split_run(kind: ByteKind, text: &[u8]) -> (&[u8], &[u8])
    ensures front { result.0.now ≡ front (is_byte_of kind) text.now }
    ensures behind { result.1.now ≡ behind_front (is_byte_of kind) text.now }
{
    text.split_at(run_length(kind, text))
}
