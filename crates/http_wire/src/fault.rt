//! What can be wrong with a message.
use rollout_model::Refusal;

/// Why the bytes at the front of a stream are no message, whatever follows. The connection ends with it.
#[derive(Clone, Copy)]
pub enum WireFault {
    /// The body is longer than the limit.
    TooLarge,
    /// The head doesn't have the one form that is read.
    BadHead,
    /// The length of the body isn't a number, or is there twice.
    BadLength,
    /// The head is longer than the limit or has too many fields.
    HeadTooLarge,
    /// The body has a transfer coding.
    BadCoding,
}

impl WireFault {
    ghost use Rattle.std.specs.Prelude.{◌≡◌};
    ghost use Rattle.http_wire.specs.Faults.{refusal_of};

    /// The refusal that answers the fault.
    pub fn refusal(self) -> Refusal
        ensures { result ≡ refusal_of self }
    {
        match self {
            WireFault::TooLarge => Refusal::TooLarge,
            WireFault::BadHead => Refusal::BadHead,
            WireFault::BadLength => Refusal::BadLength,
            WireFault::HeadTooLarge => Refusal::HeadTooLarge,
            WireFault::BadCoding => Refusal::BadCoding,
        }
    }
}
