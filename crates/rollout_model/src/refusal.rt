//! Why a request is refused.

ghost use Rattle.std.specs.Prelude.{◌≡◌};
ghost use Rattle.rollout_model.specs.Refusals.{refusal_row, NoMemory};

use std::alloc::{AllocError, AllocFailed};

/// Why a request is refused. After each but `StoreFailed` the records are what they were before the request.
#[derive(Clone, Copy, PartialEq, Eq)]
pub enum Refusal {
    /// A body, a query or a member of it breaks its rule.
    BadRequest,
    /// The device is unknown, or its token is another.
    Unauthorized,
    /// There is no such route or object.
    NotFound,
    /// The route has no such method.
    BadMethod,
    /// An object of the same name is there.
    Exists,
    /// A distribution set names the module, so it takes no further artifact.
    Locked,
    /// The rollout or action is in a state that does not allow it.
    WrongState,
    /// The action has its outcome.
    ClosedAction,
    /// The body is longer than the limit.
    TooLarge,
    /// A limit of the desk is reached.
    Quota,
    /// The text is no target filter.
    BadFilter,
    /// A group of the rollout would have no target.
    TooFewTargets,
    /// The contents have another digest than was named.
    WrongDigest,
    /// This line of an import breaks its rule, the header being line 1.
    BadImportLine(u64),
    /// Memory was refused.
    NoMemory,
    /// The store failed: the command may or may not be kept, and the desk is stopped.
    StoreFailed,
    /// The store failed before: the desk answers nothing until it is reopened.
    Stopped,
    /// The message's head has not the form of RFC 9112.
    BadHead,
    /// The length of the body is given twice, or is no number.
    BadLength,
    /// The head has too many bytes or fields.
    HeadTooLarge,
    /// The body has a transfer coding.
    BadCoding,
    /// The action has feedback of this number or a greater one already, and not this.
    OldNumber,
}

impl Refusal {
    /// Its number, from 1 to 22.
    pub fn number(&self) -> u8
        ensures { result ≡ (refusal_row self.now).number }
    {
        match self {
            Refusal::BadRequest => 1,
            Refusal::Unauthorized => 2,
            Refusal::NotFound => 3,
            Refusal::BadMethod => 4,
            Refusal::Exists => 5,
            Refusal::Locked => 6,
            Refusal::WrongState => 7,
            Refusal::ClosedAction => 8,
            Refusal::TooLarge => 9,
            Refusal::Quota => 10,
            Refusal::BadFilter => 11,
            Refusal::TooFewTargets => 12,
            Refusal::WrongDigest => 13,
            Refusal::BadImportLine(_) => 14,
            Refusal::NoMemory => 15,
            Refusal::StoreFailed => 16,
            Refusal::Stopped => 17,
            Refusal::BadHead => 18,
            Refusal::BadLength => 19,
            Refusal::HeadTooLarge => 20,
            Refusal::BadCoding => 21,
            Refusal::OldNumber => 22,
        }
    }

    /// Its name in a reply.
    pub fn name(&self) -> &'static str
        ensures { result.now ≡ (refusal_row self.now).name }
    {
        match self {
            Refusal::BadRequest => "bad_request",
            Refusal::Unauthorized => "unauthorized",
            Refusal::NotFound => "not_found",
            Refusal::BadMethod => "method",
            Refusal::Exists => "exists",
            Refusal::Locked => "locked",
            Refusal::WrongState => "wrong_state",
            Refusal::ClosedAction => "closed_action",
            Refusal::TooLarge => "too_large",
            Refusal::Quota => "quota",
            Refusal::BadFilter => "filter",
            Refusal::TooFewTargets => "too_few_targets",
            Refusal::WrongDigest => "digest",
            Refusal::BadImportLine(_) => "import_line",
            Refusal::NoMemory => "memory",
            Refusal::StoreFailed => "store",
            Refusal::Stopped => "stopped",
            Refusal::BadHead => "head",
            Refusal::BadLength => "length",
            Refusal::HeadTooLarge => "head_size",
            Refusal::BadCoding => "coding",
            Refusal::OldNumber => "old_number",
        }
    }

    /// The HTTP status of its reply.
    pub fn status(&self) -> u16
        ensures { result ≡ (refusal_row self.now).status }
    {
        match self {
            Refusal::BadRequest
            | Refusal::BadFilter
            | Refusal::TooFewTargets
            | Refusal::WrongDigest
            | Refusal::BadImportLine(_)
            | Refusal::BadHead
            | Refusal::BadLength => 400,
            Refusal::Unauthorized => 401,
            Refusal::Quota => 403,
            Refusal::NotFound => 404,
            Refusal::BadMethod => 405,
            Refusal::Exists | Refusal::Locked | Refusal::WrongState => 409,
            Refusal::ClosedAction | Refusal::OldNumber => 410,
            Refusal::TooLarge => 413,
            Refusal::HeadTooLarge => 431,
            Refusal::StoreFailed => 500,
            Refusal::BadCoding => 501,
            Refusal::NoMemory | Refusal::Stopped => 503,
        }
    }

    /// Whether the connection ends with its reply.
    pub fn ends(&self) -> bool
        ensures { result ≡ (refusal_row self.now).ends }
    {
        matches!(
            self,
            Refusal::TooLarge
                | Refusal::BadHead
                | Refusal::BadLength
                | Refusal::HeadTooLarge
                | Refusal::BadCoding
        )
    }
}

impl From<AllocError> for Refusal {
    ghost from_gives = { λ _ e. e ≡ NoMemory };

    fn from(_refused: AllocError) -> Refusal {
        Refusal::NoMemory
    }
}

impl<T: Drop> From<AllocFailed<T>> for Refusal {
    ghost from_gives = { λ _ e. e ≡ NoMemory };

    fn from(_refused: AllocFailed<T>) -> Refusal {
        Refusal::NoMemory
    }
}
