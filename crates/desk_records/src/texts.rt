//! The texts of the row of `desk`, and of modules.

/// The row of `desk`; its parameter is whether rollouts wait for approval.
pub const PUT_DESK: &str =
    "INSERT INTO desk (id, format, version, approval) VALUES (1, 'fwdesk', 3, ?1)";

/// The row of `desk` says the newest version.
pub const SET_VERSION: &str = "UPDATE desk SET version = 3 WHERE id = 1";

pub const GET_DESK: &str = "SELECT format, version, approval FROM desk WHERE id = 1";

/// The module of a name, a type and a version.
pub const FIND_MODULE: &str =
    "SELECT number FROM module WHERE name = ?1 AND type = ?2 AND version = ?3";

/// The last number, which is how many modules there are.
pub const LAST_MODULE: &str = "SELECT number FROM module ORDER BY number DESC LIMIT 1";

pub const GET_MODULE: &str = "SELECT name, type, version FROM module WHERE number = ?1";

pub const PUT_MODULE: &str =
    "INSERT INTO module (number, name, type, version) VALUES (?1, ?2, ?3, ?4)";
