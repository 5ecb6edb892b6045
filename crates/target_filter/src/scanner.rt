//! Goes through a text a byte at a time, and says whether it is a filter, or how much of it could begin one.

ghost use Rattle.std.specs.Prelude.{◌≡◌, ◌≤◌, ◌<◌, ◌+◌, ◌^◌, length};
ghost use Rattle.std.specs.Option.{IfSome, option_map};
ghost use Rattle.std.specs.Result.{MatchResult};
ghost use Rattle.target_filter.specs.private.Scanner as scan;
ghost use Rattle.target_filter.specs.private.Scanner.{Ends, StopsBehind};
ghost use Rattle.target_filter.specs.private.ScannerViews.{mode_of, move_of, state_of};

use crate::byte_kind::{is_bare_byte, is_quotable_byte, is_word_letter};
use rollout_model::limits::WORD_LENGTH_LIMIT;

/// What is wanted next.
#[derive(Clone, Copy)]
pub(crate) enum Mode {
    /// An atom.
    AtomStart,
    /// The rest of a field's name, and then a key or an operator.
    FieldName { left: &'static [u8], keyed: bool },
    /// A key of which so many letters are there, or behind it an operator.
    Key(usize),
    /// The second byte of an operator.
    Equals,
    /// A value.
    Value,
    /// The rest of a value without quotes.
    Bare,
    /// The rest of a value in quotes.
    Quoted,
    /// What may stand behind an atom.
    AtomEnd,
}

/// What a byte does.
pub(crate) enum Move {
    Go(Mode),
    Open,
    Close,
    Next,
    Stop,
}

#[derive(Clone, Copy)]
pub(crate) struct State {
    depth: usize,
    deepest: usize,
    mode: Mode,
}

fn at_atom_start(byte: u8) -> Move
    ensures { move_of result ≡ scan.at_atom_start byte }
{
    let (left, keyed): (&'static [u8], bool) = match byte {
        b'c' => (b"ontrollerid", false),
        b'n' => (b"ame", false),
        b't' => (b"ag", false),
        b'a' => (b"ttribute.", true),
        b'(' => return Move::Open,
        _ => return Move::Stop,
    };
    Move::Go(Mode::FieldName { left, keyed })
}

fn at_operator(byte: u8) -> Move
    ensures { move_of result ≡ scan.at_operator byte }
{
    match byte {
        b'=' | b'!' => Move::Go(Mode::Equals),
        _ => Move::Stop,
    }
}

fn at_atom_end(byte: u8) -> Move
    ensures { move_of result ≡ scan.at_atom_end byte }
{
    match byte {
        b',' | b';' => Move::Next,
        b')' => Move::Close,
        _ => Move::Stop,
    }
}

fn mode_of_name(left: &'static [u8], keyed: bool) -> Mode
    ensures { mode_of result ≡ scan.mode_of_name left.now keyed }
{
    if left.is_empty() && keyed {
        Mode::Key(0)
    } else {
        Mode::FieldName { left, keyed }
    }
}

fn in_field_name(left: &'static [u8], keyed: bool, byte: u8) -> Move
    ensures { move_of result ≡ scan.next (scan.FieldName left.now keyed) byte }
{
    match left {
        [] => at_operator(byte),
        [first, rest @ ..] => {
            if byte == *first {
                Move::Go(mode_of_name(rest, keyed))
            } else {
                Move::Stop
            }
        }
    }
}

fn in_key(count: usize, byte: u8) -> Move
    ensures { move_of result ≡ scan.next (scan.Key count) byte }
{
    if is_word_letter(byte) {
        if count < WORD_LENGTH_LIMIT {
            Move::Go(Mode::Key(count + 1))
        } else {
            Move::Stop
        }
    } else if count > 0 {
        at_operator(byte)
    } else {
        Move::Stop
    }
}

fn at_value(byte: u8) -> Move
    ensures { move_of result ≡ scan.next scan.Value byte }
{
    if is_bare_byte(byte) {
        Move::Go(Mode::Bare)
    } else if byte == b'"' {
        Move::Go(Mode::Quoted)
    } else {
        Move::Stop
    }
}

fn in_bare(byte: u8) -> Move
    ensures { move_of result ≡ scan.next scan.Bare byte }
{
    if is_bare_byte(byte) {
        Move::Go(Mode::Bare)
    } else {
        at_atom_end(byte)
    }
}

fn in_quoted(byte: u8) -> Move
    ensures { move_of result ≡ scan.next scan.Quoted byte }
{
    if is_quotable_byte(byte) {
        Move::Go(Mode::Quoted)
    } else if byte == b'"' {
        Move::Go(Mode::AtomEnd)
    } else {
        Move::Stop
    }
}

fn next(mode: Mode, byte: u8) -> Move
    ensures { move_of result ≡ scan.next (mode_of mode) byte }
{
    match mode {
        Mode::AtomStart => at_atom_start(byte),
        Mode::FieldName { left, keyed } => in_field_name(left, keyed, byte),
        Mode::Key(count) => in_key(count, byte),
        Mode::Equals => {
            if byte == b'=' {
                Move::Go(Mode::Value)
            } else {
                Move::Stop
            }
        }
        Mode::Value => at_value(byte),
        Mode::Bare => in_bare(byte),
        Mode::Quoted => in_quoted(byte),
        Mode::AtomEnd => at_atom_end(byte),
    }
}

fn step(state: State, byte: u8) -> Option<State>
    requires { state.depth < 2 ^ 63 }
    ensures is { option_map state_of result ≡ scan.step (state_of state) byte }
    ensures depth { IfSome result (λ next. next.depth ≤ state.depth + 1) }
{
    let State {
        depth,
        deepest,
        mode,
    } = state;
    match next(mode, byte) {
        Move::Go(mode) => Some(State {
            depth,
            deepest,
            mode,
        }),
        Move::Open => Some(State {
            depth: depth + 1,
            deepest: deepest.max(depth + 1),
            mode: Mode::AtomStart,
        }),
        Move::Close => {
            if depth > 0 {
                Some(State {
                    depth: depth - 1,
                    deepest,
                    mode: Mode::AtomEnd,
                })
            } else {
                None
            }
        }
        Move::Next => Some(State {
            depth,
            deepest,
            mode: Mode::AtomStart,
        }),
        Move::Stop => None,
    }
}

fn accepts(state: State) -> bool
    ensures { result ≡ scan.accepts (state_of state) }
{
    match state.mode {
        Mode::Bare | Mode::AtomEnd => state.depth == 0,
        _ => false,
    }
}

/// How deep the parentheses of a filter nest, or behind how many bytes the text can't go on as one.
pub(crate) fn scan(text: &[u8]) -> Result<usize, usize>
    requires { length text.now ≤ 512 }
    ensures { MatchResult result (λ deepest. Ends text.now deepest) (λ at. StopsBehind text.now at) }
{
    let mut state = State {
        depth: 0,
        deepest: 0,
        mode: Mode::AtomStart,
    };
    for (at, byte) in text.iter().enumerate() {
        match step(state, *byte) {
            Some(next) => state = next,
            None => return Err(at),
        }
    }
    if accepts(state) {
        Ok(state.deepest)
    } else {
        Err(text.len())
    }
}
