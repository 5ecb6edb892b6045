//! The texts of artifacts.

/// The artifact of a module and a filename.
pub const FIND_ARTIFACT: &str = "SELECT number FROM artifact WHERE module = ?1 AND filename = ?2";

/// The last number, which is how many artifacts there are.
pub const LAST_ARTIFACT: &str = "SELECT number FROM artifact ORDER BY number DESC LIMIT 1";

pub const GET_ARTIFACT: &str =
    "SELECT module, filename, size, sha256 FROM artifact WHERE number = ?1";

/// The artifacts of a module, in the order of their numbers.
pub const LIST_ARTIFACTS: &str =
    "SELECT number, filename, size, sha256 FROM artifact WHERE module = ?1 ORDER BY number";

/// The artifacts of all modules, in the order of their numbers.
pub const LIST_ALL_ARTIFACTS: &str =
    "SELECT module, filename, size, sha256, number FROM artifact ORDER BY number";

pub const GET_PIECE: &str = "SELECT bytes FROM piece WHERE artifact = ?1 AND sequence = ?2";

pub const PUT_ARTIFACT: &str =
    "INSERT INTO artifact (number, module, filename, size, sha256) VALUES (?1, ?2, ?3, ?4, ?5)";

pub const PUT_PIECE: &str = "INSERT INTO piece (artifact, sequence, bytes) VALUES (?1, ?2, ?3)";
