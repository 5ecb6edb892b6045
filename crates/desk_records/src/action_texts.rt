//! The texts of actions, their history and its numbers, and offers.

/// The last number, which is how many actions there are.
pub const LAST_ACTION: &str = "SELECT number FROM action ORDER BY number DESC LIMIT 1";

pub const GET_ACTION: &str =
    "SELECT rollout, place, controller, canceling, outcome, notes, entries FROM action WHERE number = ?1";

/// The actions of a rollout, in the order of their numbers: at most as many as the second parameter, after as many as the third.
pub const LIST_ACTIONS: &str =
    "SELECT rollout, place, controller, canceling, outcome, notes, entries, number FROM action WHERE rollout = ?1 ORDER BY number LIMIT ?2 OFFSET ?3";

/// How many actions all rollouts have.
pub const COUNT_ACTIONS: &str = "SELECT count(*) FROM action";

/// The numbers of a target's actions, in their order.
pub const LIST_ACTION_NUMBERS: &str =
    "SELECT number FROM action WHERE controller = ?1 ORDER BY number";

/// The actions of a target from a number on, in the order of their numbers: at most as many as the third parameter.
pub const LIST_TARGET_ACTIONS: &str =
    "SELECT rollout, place, controller, canceling, outcome, notes, entries, number FROM action WHERE controller = ?1 AND number >= ?2 \
        ORDER BY number LIMIT ?3";

/// The last of a target's actions that ended.
pub const LAST_ENDED: &str =
    "SELECT rollout, place, controller, canceling, outcome, notes, entries, number FROM action WHERE controller = ?1 AND outcome > 0 \
        ORDER BY number DESC LIMIT 1";

/// An action for each member of a rollout, in the order of their places: open, and with no history. SQLite chooses the numbers, each the next.
pub const PUT_ACTIONS: &str =
    "INSERT INTO action (rollout, place, controller, canceling, outcome, notes, entries) SELECT rollout, place, controller, 0, 0, 0, 0 \
        FROM member WHERE rollout = ?1 ORDER BY place";

pub const SET_ACTION: &str =
    "UPDATE action SET canceling = ?2, outcome = ?3, notes = ?4, entries = ?5 WHERE number = ?1";

pub const PUT_FEEDBACK: &str =
    "INSERT INTO feedback (action, sequence, kind, word, details) VALUES (?1, ?2, ?3, ?4, ?5)";

/// The history of an action, in its order: at most as many entries as the second parameter, after as many as the third.
pub const LIST_ENTRIES: &str =
    "SELECT kind, word, details, sequence FROM feedback WHERE action = ?1 ORDER BY sequence LIMIT ?2 OFFSET ?3";

/// The number of an entry, at its place among those of the action.
pub const PUT_NUMBER: &str =
    "INSERT INTO feedback_number (action, place, sequence, number) VALUES (?1, ?2, ?3, ?4)";

/// The last number of an action, with its place.
pub const LAST_NUMBER: &str =
    "SELECT sequence, number, place FROM feedback_number WHERE action = ?1 ORDER BY place DESC LIMIT 1";

/// The numbers of an action, in the order of their places.
pub const LIST_NUMBERS: &str =
    "SELECT sequence, number FROM feedback_number WHERE action = ?1 ORDER BY place";

/// The offer of a target.
pub const GET_OFFER: &str = "SELECT action, kind FROM offer WHERE controller = ?1";

/// The offers of all targets.
pub const LIST_OFFERS: &str = "SELECT action, kind, controller FROM offer";

/// Another offer in place of a target's offer of an action.
pub const SET_OFFER: &str =
    "UPDATE offer SET action = ?3, kind = ?4 WHERE controller = ?1 AND action = ?2";

/// Nothing in place of a target's offer of an action.
pub const DROP_OFFER: &str = "DELETE FROM offer WHERE controller = ?1 AND action = ?2";

/// The first of a target's actions, from one on, that is open and whose place a started group of its rollout holds.
pub const NEXT_OFFER: &str =
    "SELECT number, canceling FROM action WHERE controller = ?1 AND number >= ?2 AND outcome = 0 AND EXISTS (SELECT 1 FROM rollout_group \
        WHERE rollout_group.rollout = action.rollout AND rollout_group.first_place <= action.place \
        AND rollout_group.last_place >= action.place AND rollout_group.started = 1) ORDER BY number LIMIT 1";

/// The actions of a rollout between two places, each as its target's offer, unless that is of no greater number.
pub const PUT_GROUP_OFFERS: &str =
    "INSERT INTO offer (controller, action, kind) SELECT controller, number, 0 FROM action WHERE rollout = ?1 AND place >= ?2 \
        AND place <= ?3 ORDER BY number ON CONFLICT (controller) DO UPDATE SET action = excluded.action, kind = excluded.kind \
        WHERE excluded.action < offer.action";
