//! The texts of distribution sets.

/// The set of a name and a version.
pub const FIND_SET: &str = "SELECT number FROM dset WHERE name = ?1 AND version = ?2";

/// The last number, which is how many sets there are.
pub const LAST_SET: &str = "SELECT number FROM dset ORDER BY number DESC LIMIT 1";

pub const GET_SET: &str = "SELECT name, version FROM dset WHERE number = ?1";

/// The modules of a set, in its order.
pub const LIST_SET_MODULES: &str = "SELECT module FROM set_module WHERE dset = ?1 ORDER BY place";

/// A set that names a module.
pub const MODULE_LOCKED: &str = "SELECT dset FROM set_module WHERE module = ?1 LIMIT 1";

pub const PUT_SET: &str = "INSERT INTO dset (number, name, version) VALUES (?1, ?2, ?3)";

pub const PUT_SET_MODULE: &str = "INSERT INTO set_module (dset, place, module) VALUES (?1, ?2, ?3)";
