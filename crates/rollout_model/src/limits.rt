//! The limits of a desk: the code's copy of `specs/Limits.antt`, from which it takes no number.

/// How many modules a desk takes.
pub const MODULE_LIMIT: u32 = 1000;

/// How many artifacts a module takes.
pub const MODULE_ARTIFACT_LIMIT: usize = 8;

/// How many artifacts a desk takes.
pub const ARTIFACT_LIMIT: u32 = 256;

/// The most bytes of an artifact's contents, since a body hands them in.
pub const ARTIFACT_SIZE_LIMIT: usize = BODY_LENGTH_LIMIT;

/// The bytes of every piece of an artifact's contents but the last, which may be shorter.
pub const PIECE_LENGTH: usize = 65_536;

/// How many distribution sets a desk takes.
pub const SET_LIMIT: u32 = 1000;

/// How many modules a set has at most.
pub const SET_MODULE_LIMIT: usize = 8;

/// How many targets a desk takes.
pub const TARGET_LIMIT: u32 = 10_000;

/// How many targets one posted request adds at most.
pub const POSTED_TARGET_LIMIT: usize = 100;

/// How many tags a target takes.
pub const TAG_LIMIT: usize = 16;

/// How many attributes a target takes.
pub const ATTRIBUTE_LIMIT: usize = 32;

/// How many rollouts a desk takes.
pub const ROLLOUT_LIMIT: u32 = 1000;

/// How many groups a rollout has at most.
pub const GROUP_LIMIT: u32 = 50;

/// How many notes an action takes.
pub const NOTE_LIMIT: u32 = 100;

/// The greatest percentage of a threshold.
pub const PERCENTAGE_LIMIT: u8 = 100;

/// The most bytes of the id of a target, a tag, or the key of an attribute.
pub const WORD_LENGTH_LIMIT: usize = 64;

/// The most bytes of an artifact's filename.
pub const FILENAME_LENGTH_LIMIT: usize = 128;

/// The most bytes of a name, a kind, a version, or the value of an attribute.
pub const TEXT_LENGTH_LIMIT: usize = 128;

/// The most bytes of one line of a feedback.
pub const DETAIL_LENGTH_LIMIT: usize = 256;

/// How many lines a feedback has at most.
pub const DETAIL_LIMIT: usize = 8;

/// The least bytes of a device's token.
pub const TOKEN_LENGTH_LEAST: usize = 8;

/// The most bytes of a device's token.
pub const TOKEN_LENGTH_LIMIT: usize = 64;

/// The bytes of a SHA-256 digest.
pub const DIGEST_LENGTH: usize = 32;

/// The greatest number of a module, an artifact, a set, a rollout or an action.
pub const NUMBER_LIMIT: u32 = 2_147_483_647;

/// The most bytes of a filter's text.
pub const FILTER_LENGTH_LIMIT: usize = 512;

/// How deep a filter's parentheses nest at most.
pub const FILTER_DEPTH_LIMIT: usize = 16;

/// The most bytes of a request's head, with the empty line that ends it.
pub const HEAD_LENGTH_LIMIT: usize = 8192;

/// How many fields a request's head has at most.
pub const FIELD_LIMIT: usize = 32;

/// The most bytes of a request's body.
pub const BODY_LENGTH_LIMIT: usize = 4_194_304;

/// The most bytes of a file of targets, since a body hands it in as an import.
pub const FILE_LENGTH_LIMIT: usize = BODY_LENGTH_LIMIT;

/// The most entries of a page.
pub const PAGE_LIMIT: u32 = 500;

/// How many entries a page has where the request names no other number.
pub const PAGE_DEFAULT: u32 = 50;
