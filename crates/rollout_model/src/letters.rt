//! The tests of the short texts.

ghost use Rattle.std.specs.Prelude.{◌≡◌, nat_le, ◌&&◌, length};
ghost use Rattle.std.specs.List.{list_all};
ghost use Rattle.std.specs.Str.{is_utf8};
ghost use Rattle.rollout_model.specs.Rules.{is_word_letter, is_text_letter, is_spelled};

fn is_word_letter(byte: u8) -> bool
    ensures { result ≡ is_word_letter byte }
{
    byte.is_ascii_alphanumeric() || byte == b'.' || byte == b'_' || byte == b'-'
}

fn are_word_letters(bytes: &[u8]) -> bool
    ensures { result ≡ list_all is_word_letter bytes.now }
{
    bytes.iter().all(|b| is_word_letter(*b))
}

/// Whether the bytes are `low` to `high` letters of `A-Z a-z 0-9 . _ -`.
pub(crate) fn is_word_spelled(bytes: &[u8], low: usize, high: usize) -> bool
    ensures { result ≡ is_spelled is_word_letter low high bytes.now }
{
    low <= bytes.len() && bytes.len() <= high && are_word_letters(bytes)
}

fn is_text_letter(byte: u8) -> bool
    ensures { result ≡ is_text_letter byte }
{
    byte >= 32 && byte != 127
}

fn are_text_letters(bytes: &[u8]) -> bool
    ensures { result ≡ list_all is_text_letter bytes.now }
{
    bytes.iter().all(|b| is_text_letter(*b))
}

fn is_spelled_in_text_letters(bytes: &[u8], low: usize, high: usize) -> bool
    ensures { result ≡ is_spelled is_text_letter low high bytes.now }
{
    low <= bytes.len() && bytes.len() <= high && are_text_letters(bytes)
}

/// Whether the text has `low` to `high` bytes and no control character (U+0000 to U+001F, U+007F).
pub(crate) fn is_text_spelled(text: &str, low: usize, high: usize) -> bool
    ensures { result ≡ (is_spelled is_text_letter low high text.now && is_utf8 text.now) }
{
    is_spelled_in_text_letters(text.as_bytes(), low, high)
}
