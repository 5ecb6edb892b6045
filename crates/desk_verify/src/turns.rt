//! Whether actions are those of members, each in its turn.

ghost use Rattle.std.specs.Prelude.{◌≡◌};
ghost use Rattle.desk_verify.specs.ActionChecks.{are_for, count_on, is_each_for, is_for_member, numbers_rise, sequences_rise};

use desk_store::{ListedAction, PlacedMember, SequencedEntry};

/// Whether the places are 1, 2 and so on.
pub(crate) fn count_on(members: &[PlacedMember]) -> bool
    ensures { result ≡ count_on 0 members.now }
{
    let mut last = 0;
    for member in members {
        if member.place == 0 || member.place - 1 != last {
            return false;
        }
        last = member.place;
    }
    true
}

/// Whether each number is greater than the one before.
pub(crate) fn numbers_rise(actions: &[ListedAction]) -> bool
    ensures { result ≡ numbers_rise actions.now }
{
    let mut last = 0;
    for action in actions {
        let number = action.number.get();
        if number <= last {
            return false;
        }
        last = number;
    }
    true
}

/// Whether each place in the sequence is greater than the one before.
pub(crate) fn sequences_rise(entries: &[SequencedEntry]) -> bool
    ensures { result ≡ sequences_rise entries.now }
{
    let mut last = 0;
    for entry in entries {
        if entry.sequence <= last {
            return false;
        }
        last = entry.sequence;
    }
    true
}

/// Whether each member has the action in its turn, and there is no other.
pub(crate) fn are_for(members: &[PlacedMember], actions: &[ListedAction]) -> bool
    ensures { result ≡ are_for members.now actions.now }
{
    actions.len() == members.len() && is_each_for(members, actions)
}

fn is_each_for(members: &[PlacedMember], actions: &[ListedAction]) -> bool
    ensures { result ≡ is_each_for members.now actions.now }
{
    members
        .iter()
        .zip(actions)
        .all(|(member, action)| is_for(member, action))
}

fn is_for(member: &PlacedMember, action: &ListedAction) -> bool
    ensures { result ≡ is_for_member member.now action.now }
{
    action.action.position == member.place && action.action.target == member.id
}
