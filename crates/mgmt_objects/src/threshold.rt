//! The conditions of a rollout's body.

ghost use Rattle.std.specs.Prelude.{◌≡◌, ◌≤◌, option_map};
ghost use Rattle.serde_json.specs.View.{view};
ghost use Rattle.mgmt_objects.specs.Bodies.{string_member};
ghost use Rattle.mgmt_objects.specs.Thresholds.{percent_after, percentage_of_text, says, threshold_of};

use rollout_model::Percentage;
use serde_json::Value;

fn percent_after(n: u8, digits: &[u8]) -> Option<u8>
    requires { n ≤ 100 }
    ensures { result ≡ percent_after n digits.now }
{
    match digits {
        [] => Some(n),
        [digit, rest @ ..] => {
            let digit = *digit;
            if digit < b'0' || digit > b'9' {
                return None;
            }
            let next = u16::from(n) * 10 + u16::from(digit - b'0');
            if next > 100 {
                return None;
            }
            percent_after(next as u8, rest)
        }
    }
}

/// The percentage that digits write without a leading zero.
fn percentage_of(digits: &[u8]) -> Option<Percentage>
    ensures { result ≡ percentage_of_text digits.now }
{
    match digits {
        [] => None,
        [b'0', ..] => None,
        digits => {
            let percent = percent_after(0, digits)?;
            Percentage::new(percent)
        }
    }
}

pub fn string_member<'a>(object: &'a Value, key: &str) -> Option<&'a str>
    ensures { option_map (λ s. s.now) result ≡ string_member key.now (view object.now) }
{
    object.get(key).and_then(Value::as_str)
}

/// Whether a member is this word.
pub fn says(object: &Value, key: &str, word: &str) -> bool
    ensures { result ≡ says key.now word.now (view object.now) }
{
    match string_member(object, key) {
        Some(text) => text == word,
        None => false,
    }
}

/// The percentage of an object whose `condition` is `THRESHOLD`.
pub fn threshold_of(condition: &Value) -> Option<Percentage>
    ensures { result ≡ threshold_of (view condition.now) }
{
    if !says(condition, "condition", "THRESHOLD") {
        return None;
    }
    let text = string_member(condition, "expression")?;
    percentage_of(text.as_bytes())
}
