//! The texts of targets.

pub const GET_TARGET: &str = "SELECT name, digest FROM target WHERE controller = ?1";

/// How many targets there are.
pub const COUNT_TARGETS: &str = "SELECT count(*) FROM target";

/// All targets, in byte order of their ids.
pub const LIST_ALL_TARGETS: &str = "SELECT controller, name FROM target ORDER BY controller";

/// The ids of all targets, in byte order.
pub const LIST_TARGET_IDS: &str = "SELECT controller FROM target ORDER BY controller";

/// The targets from an id to another, in byte order of their ids.
pub const LIST_TARGETS_BETWEEN: &str =
    "SELECT controller, name FROM target WHERE controller >= ?1 AND controller <= ?2 ORDER BY controller";

/// The tags of a target, in byte order.
pub const LIST_TARGET_TAGS: &str = "SELECT tag FROM target_tag WHERE controller = ?1 ORDER BY tag";

/// The tags of the targets from an id to another, in byte order of the ids and then of the tags.
pub const LIST_TAGS_BETWEEN: &str =
    "SELECT controller, tag FROM target_tag WHERE controller >= ?1 AND controller <= ?2 ORDER BY controller, tag";

/// One tag of the targets from an id to another, where they have it, in byte order of the ids.
pub const LIST_TAG_BETWEEN: &str =
    "SELECT controller, tag FROM target_tag WHERE controller >= ?1 AND controller <= ?2 AND tag = ?3 ORDER BY controller, tag";

pub const PUT_TARGET: &str = "INSERT INTO target (controller, name, digest) VALUES (?1, ?2, ?3)";

pub const SET_TARGET: &str = "UPDATE target SET name = ?2, digest = ?3 WHERE controller = ?1";

pub const PUT_TARGET_TAG: &str = "INSERT INTO target_tag (controller, tag) VALUES (?1, ?2)";

pub const DROP_TARGET_TAG: &str = "DELETE FROM target_tag WHERE controller = ?1 AND tag = ?2";

/// The attributes of a target, by their keys in byte order.
pub const LIST_TARGET_ATTRIBUTES: &str =
    "SELECT key, value FROM target_attribute WHERE controller = ?1 ORDER BY key";

/// The attributes of the targets from an id to another, in byte order of the ids and then of the keys.
pub const LIST_ATTRIBUTES_BETWEEN: &str =
    "SELECT controller, key, value FROM target_attribute WHERE controller >= ?1 AND controller <= ?2 ORDER BY controller, key";

pub const PUT_TARGET_ATTRIBUTE: &str =
    "INSERT INTO target_attribute (controller, key, value) VALUES (?1, ?2, ?3)";

pub const SET_TARGET_ATTRIBUTE: &str =
    "UPDATE target_attribute SET value = ?3 WHERE controller = ?1 AND key = ?2";
