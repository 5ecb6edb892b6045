//! Thresholds: percentages of a group's size.

ghost use Rattle.std.specs.Prelude.{◌≡◌, ◌^◌, ◌≤◌};
ghost use Rattle.rollout_machine.specs.Counts.{reaches};
ghost use Rattle.rollout_machine.specs.Effects.{error_begins};

/// Whether `count` of `size` members are at least `percent` per cent of them.
pub(crate) fn reaches(count: u64, size: u32, percent: u8) -> bool
    requires { count ≤ 2 ^ 32 }
    ensures { result ≡ reaches count size percent }
{
    percent as u64 * size as u64 <= 100 * count
}

/// Whether the error threshold is reached now and was not before.
pub(crate) fn begins(bad_before: u64, bad_now: u64, size: u32, percent: u8) -> bool
    requires before { bad_before ≤ 2 ^ 32 }
    requires now { bad_now ≤ 2 ^ 32 }
    ensures { result ≡ error_begins bad_before bad_now size percent }
{
    reaches(bad_now, size, percent) && !reaches(bad_before, size, percent)
}

/// Whether a group of `size` members, of which `ok` succeeded, has success at this threshold, a percentage. Canceled
/// actions count as neither success nor failure. Takes no memory.
pub fn success_holds(ok: u32, size: u32, percent: u8) -> bool
    ensures { result ≡ reaches ok size percent }
{
    reaches(ok as u64, size, percent)
}

/// Whether a group's error condition holds with `bad_now` failures and did not with `bad_before`. Takes no memory.
pub fn error_begins(bad_before: u32, bad_now: u32, size: u32, percent: u8) -> bool
    ensures { result ≡ error_begins bad_before bad_now size percent }
{
    begins(bad_before as u64, bad_now as u64, size, percent)
}
