//! The tables of a desk, in the order in which they are made.

/// One row, of number 1.
pub const CREATE_DESK: &str =
    "CREATE TABLE desk (id INTEGER PRIMARY KEY, format TEXT NOT NULL, version INTEGER NOT NULL, approval INTEGER NOT NULL) STRICT";

/// The k-th module that was added has number k; no two have the same name, type and version.
pub const CREATE_MODULE: &str =
    "CREATE TABLE module (number INTEGER PRIMARY KEY, name TEXT NOT NULL, type TEXT NOT NULL, version TEXT NOT NULL, UNIQUE (name, type, version)) STRICT";

/// The k-th set that was added has number k; no two have the same name and version.
pub const CREATE_SET: &str =
    "CREATE TABLE dset (number INTEGER PRIMARY KEY, name TEXT NOT NULL, version TEXT NOT NULL, UNIQUE (name, version)) STRICT";

/// The modules of the sets, each at its place, from 1; no place of a set is taken twice, and no module stands in a set twice.
pub const CREATE_SET_MODULE: &str =
    "CREATE TABLE set_module (dset INTEGER NOT NULL, place INTEGER NOT NULL, module INTEGER NOT NULL, PRIMARY KEY (dset, place), UNIQUE (module, dset)) STRICT";

/// The k-th artifact that was added has number k, and its digest 32 bytes; no two of a module have the same filename.
pub const CREATE_ARTIFACT: &str =
    "CREATE TABLE artifact (number INTEGER PRIMARY KEY, module INTEGER NOT NULL, filename TEXT NOT NULL, size INTEGER NOT NULL, \
        sha256 BLOB NOT NULL, UNIQUE (module, filename)) STRICT";

/// The contents of the artifacts in pieces, each at its place in the sequence, from 1; none is taken twice.
pub const CREATE_PIECE: &str =
    "CREATE TABLE piece (artifact INTEGER NOT NULL, sequence INTEGER NOT NULL, bytes BLOB NOT NULL, PRIMARY KEY (artifact, sequence)) STRICT";

/// The targets, by their ids.
pub const CREATE_TARGET: &str =
    "CREATE TABLE target (controller TEXT NOT NULL PRIMARY KEY, name TEXT NOT NULL, digest BLOB NOT NULL) STRICT";

/// The tags of the targets; no tag stands twice at a target.
pub const CREATE_TARGET_TAG: &str =
    "CREATE TABLE target_tag (controller TEXT NOT NULL, tag TEXT NOT NULL, PRIMARY KEY (controller, tag)) STRICT";

/// The attributes of the targets; no key stands twice at a target.
pub const CREATE_TARGET_ATTRIBUTE: &str =
    "CREATE TABLE target_attribute (controller TEXT NOT NULL, key TEXT NOT NULL, value TEXT NOT NULL, PRIMARY KEY (controller, key)) STRICT";

/// The k-th rollout that was created has number k; no two have the same name.
pub const CREATE_ROLLOUT: &str =
    "CREATE TABLE rollout (number INTEGER PRIMARY KEY, name TEXT NOT NULL UNIQUE, dset INTEGER NOT NULL, filter_text TEXT NOT NULL, \
        groups INTEGER NOT NULL, success INTEGER NOT NULL, error INTEGER NOT NULL, approval INTEGER NOT NULL, started INTEGER NOT NULL, \
        paused INTEGER NOT NULL) STRICT";

/// The members of the rollouts, by their places from 1; no place of a rollout is taken twice.
pub const CREATE_MEMBER: &str =
    "CREATE TABLE member (rollout INTEGER NOT NULL, place INTEGER NOT NULL, controller TEXT NOT NULL, PRIMARY KEY (rollout, place)) STRICT";

/// The groups of the rollouts. The last place of each finds the group of a member, and among those that aren't started the next one.
pub const CREATE_ROLLOUT_GROUP: &str =
    "CREATE TABLE rollout_group (rollout INTEGER NOT NULL, number INTEGER NOT NULL, first_place INTEGER NOT NULL, \
        last_place INTEGER NOT NULL, started INTEGER NOT NULL, ok INTEGER NOT NULL, bad INTEGER NOT NULL, gone INTEGER NOT NULL, \
        PRIMARY KEY (rollout, number), UNIQUE (rollout, last_place), UNIQUE (rollout, started, last_place)) STRICT";

/// The k-th action that was made has number k; a member of a rollout has one.
pub const CREATE_ACTION: &str =
    "CREATE TABLE action (number INTEGER PRIMARY KEY, rollout INTEGER NOT NULL, place INTEGER NOT NULL, controller TEXT NOT NULL, \
        canceling INTEGER NOT NULL, outcome INTEGER NOT NULL, notes INTEGER NOT NULL, entries INTEGER NOT NULL, \
        UNIQUE (rollout, place), UNIQUE (controller, number)) STRICT";

/// The history of the actions, by places in a sequence from 1; none is taken twice.
pub const CREATE_FEEDBACK: &str =
    "CREATE TABLE feedback (action INTEGER NOT NULL, sequence INTEGER NOT NULL, kind INTEGER NOT NULL, word INTEGER NOT NULL, \
        details TEXT NOT NULL, PRIMARY KEY (action, sequence)) STRICT";

/// What each target is offered now.
pub const CREATE_OFFER: &str =
    "CREATE TABLE offer (controller TEXT NOT NULL PRIMARY KEY, action INTEGER NOT NULL, kind INTEGER NOT NULL) STRICT";

/// What is said of the groups of the rollouts, by their numbers; a group has a percentage where its rollout isn't cut evenly.
pub const CREATE_GROUP_RULE: &str =
    "CREATE TABLE group_rule (rollout INTEGER NOT NULL, number INTEGER NOT NULL, percentage INTEGER, success INTEGER NOT NULL, \
        error INTEGER NOT NULL, PRIMARY KEY (rollout, number)) STRICT";

/// The numbers that devices gave their feedback, by places among those of the action, from 1; none is taken twice.
pub const CREATE_FEEDBACK_NUMBER: &str =
    "CREATE TABLE feedback_number (action INTEGER NOT NULL, place INTEGER NOT NULL, sequence INTEGER NOT NULL, number INTEGER NOT NULL, \
        PRIMARY KEY (action, place)) STRICT";
