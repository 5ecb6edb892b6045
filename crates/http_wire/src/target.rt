//! Path and query of a target.
ghost use Rattle.std.specs.Prelude.{◌≡◌, ◌==◌, position};
ghost use Rattle.http_wire.specs.Targets.{path_of, query_text};

fn first_question_mark(target: &[u8]) -> Option<usize>
    ensures { result ≡ position (λ b. b == 63) target.now }
{
    target.iter().position(|b| *b == b'?')
}

/// The target up to its first `?`, or all of it.
pub fn path_of(target: &[u8]) -> &[u8]
    ensures { result.now ≡ path_of target.now }
{
    match first_question_mark(target) {
        Some(place) => &target[..place],
        None => target,
    }
}

/// What follows the first `?` of the target, or nothing.
pub fn query_of(target: &[u8]) -> &[u8]
    ensures { result.now ≡ query_text target.now }
{
    match first_question_mark(target) {
        Some(place) => &target[place + 1..],
        None => b"",
    }
}
