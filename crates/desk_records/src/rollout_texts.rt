//! The texts of rollouts, their members and groups.

/// The rollout of a name.
pub const FIND_ROLLOUT: &str = "SELECT number FROM rollout WHERE name = ?1";

/// The last number, which is how many rollouts there are.
pub const LAST_ROLLOUT: &str = "SELECT number FROM rollout ORDER BY number DESC LIMIT 1";

pub const GET_ROLLOUT: &str =
    "SELECT name, dset, filter_text, groups, success, error, approval, started, paused FROM rollout WHERE number = ?1";

/// The members of a rollout after a place, in the order of their places: at most as many as the third parameter. A place says how many members
/// come up to it, so no row before the first of them is read.
pub const LIST_MEMBERS: &str =
    "SELECT controller FROM member WHERE rollout = ?1 AND place > ?2 ORDER BY place LIMIT ?3";

/// The members of a rollout with their places, in the order of their places.
pub const LIST_PLACES: &str =
    "SELECT controller, place FROM member WHERE rollout = ?1 ORDER BY place";

/// How many members all rollouts have.
pub const COUNT_MEMBERS: &str = "SELECT count(*) FROM member";

/// The groups of a rollout, in the order of their numbers.
pub const LIST_GROUPS: &str =
    "SELECT number, first_place, last_place, started, ok, bad, gone FROM rollout_group WHERE rollout = ?1 ORDER BY number";

/// How many groups all rollouts have.
pub const COUNT_GROUPS: &str = "SELECT count(*) FROM rollout_group";

/// The group of a rollout and a number.
pub const GET_GROUP: &str =
    "SELECT number, first_place, last_place, started, ok, bad, gone FROM rollout_group WHERE rollout = ?1 AND number = ?2 ORDER BY number";

/// The group of a rollout that has a place.
pub const HOLDING_GROUP: &str =
    "SELECT number, first_place, last_place, started, ok, bad, gone FROM rollout_group WHERE rollout = ?1 AND first_place <= ?2 \
        AND last_place >= ?2 ORDER BY number";

/// The group of a rollout that has a place, and the one behind it: the first two that reach so far.
pub const GROUP_AND_NEXT: &str =
    "SELECT number, first_place, last_place, started, ok, bad, gone FROM rollout_group WHERE rollout = ?1 AND last_place >= ?2 ORDER BY number LIMIT 2";

/// A rollout that is neither started nor paused.
pub const PUT_ROLLOUT: &str =
    "INSERT INTO rollout (number, name, dset, filter_text, groups, success, error, approval, started, paused) VALUES (?1, ?2, ?3, ?4, ?5, ?6, ?7, ?8, 0, 0)";

pub const SET_ROLLOUT: &str =
    "UPDATE rollout SET approval = ?2, started = ?3, paused = ?4 WHERE number = ?1";

pub const PUT_MEMBER: &str = "INSERT INTO member (rollout, place, controller) VALUES (?1, ?2, ?3)";

/// Sixteen members of one rollout.
pub const PUT_MEMBERS: &str =
    "INSERT INTO member (rollout, place, controller) VALUES (?1, ?2, ?3), (?1, ?4, ?5), (?1, ?6, ?7), (?1, ?8, ?9), \
        (?1, ?10, ?11), (?1, ?12, ?13), (?1, ?14, ?15), (?1, ?16, ?17), \
        (?1, ?18, ?19), (?1, ?20, ?21), (?1, ?22, ?23), (?1, ?24, ?25), \
        (?1, ?26, ?27), (?1, ?28, ?29), (?1, ?30, ?31), (?1, ?32, ?33)";

/// A group that isn't started, with no action that ended.
pub const PUT_GROUP: &str =
    "INSERT INTO rollout_group (rollout, number, first_place, last_place, started, ok, bad, gone) VALUES (?1, ?2, ?3, ?4, 0, 0, 0, 0)";

/// What a group has besides its bounds.
pub const SET_GROUP: &str =
    "UPDATE rollout_group SET started = ?3, ok = ?4, bad = ?5, gone = ?6 WHERE rollout = ?1 AND number = ?2";

/// What is said of the group of a rollout and a number.
pub const GET_RULE: &str =
    "SELECT percentage, success, error FROM group_rule WHERE rollout = ?1 AND number = ?2";

/// What is said of the groups of a rollout, in the order of their numbers.
pub const LIST_RULES: &str =
    "SELECT percentage, success, error FROM group_rule WHERE rollout = ?1 ORDER BY number";

pub const PUT_RULE: &str =
    "INSERT INTO group_rule (rollout, number, percentage, success, error) VALUES (?1, ?2, ?3, ?4, ?5)";
