//! Numbers of paths and queries.

ghost use Rattle.std.specs.Prelude.{◌≡◌, ◌≤◌};
ghost use Rattle.request_target.specs.Numbers.{number_after, decimal_number};

const LAST: u32 = 2147483647;

fn number_after(n: u32, digits: &[u8]) -> Option<u32>
    requires { n ≤ 2147483647 }
    ensures { result ≡ number_after n digits.now }
{
    match digits {
        [] => Some(n),
        [digit, rest @ ..] => {
            let digit = *digit;
            if digit < b'0' || digit > b'9' {
                return None;
            }
            let next = u64::from(n) * 10 + u64::from(digit - b'0');
            if next > u64::from(LAST) {
                return None;
            }
            number_after(next as u32, rest)
        }
    }
}

/// A number written in digits without a leading zero.
pub(crate) fn read_digits(digits: &[u8]) -> Option<u32>
    ensures { result ≡ decimal_number digits.now }
{
    match digits {
        [] => None,
        [b'0', _, ..] => None,
        digits => number_after(0, digits),
    }
}

/// A number written in digits without a leading zero, at most 2,147,483,647.
pub fn read_number(text: &str) -> Option<u32>
    ensures { result ≡ decimal_number text.now }
{
    read_digits(text.as_bytes())
}
