//! Why a reply is refused.

/// Why a reply is refused.
#[derive(Clone, Copy)]
pub enum ReplyFault {
    /// No halt waits for a reply.
    NotHalted,
    /// The halt that waits doesn't allow the digit.
    NotAllowed,
}

impl ReplyFault {
    ghost use Rattle.std.specs.Prelude.{◌≡◌};
    ghost use Rattle.s3_operator.specs.Halts.{fault_number};

    /// The number of the fault: 1 for `NotHalted`, 2 for `NotAllowed`.
    pub fn number(self) -> u8
        ensures { result ≡ fault_number self }
    {
        match self {
            ReplyFault::NotHalted => 1,
            ReplyFault::NotAllowed => 2,
        }
    }
}
