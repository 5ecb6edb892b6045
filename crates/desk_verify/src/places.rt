//! Whether places have no gap.

ghost use Rattle.std.specs.Prelude.{◌≡◌};
ghost use Rattle.desk_verify.specs.private.Following.{follow};

use desk_store::PlacedMember;

/// Whether each place is at most one more than the one before, and the first one is 1.
pub(crate) fn are_in_place(members: &[PlacedMember]) -> bool
    ensures { result ≡ follow 0 members.now }
{
    let mut last = 0;
    for member in members {
        if member.place == 0 || member.place - 1 > last {
            return false;
        }
        last = member.place;
    }
    true
}
