//! What an export answers, as a number.

ghost use Rattle.std.specs.Prelude.{◌≡◌};
ghost use Rattle.member_calls.specs.Statuses.{number_of};

use client_session::SessionFault;
use handles::{BUFFER_TOO_SHORT, DONE, Halt, JoinFault, StepFault};
use host_types::ConfigFault;
use pbft_codec::CodecFault;
use seal::SealFault;

/// What became of a call.
#[derive(Clone, Copy, Debug, PartialEq, Eq)]
pub enum Status {
    /// It did what it says.
    Done,
    /// Memory ran out, and nothing is changed.
    Memory,
    /// A buffer has fewer bytes than are to be written.
    BufferTooShort,
    /// A handle holds no draft of a configuration.
    NoDraft,
    /// A handle holds no configuration.
    NoConfig,
    /// A handle holds no replica.
    NoReplica,
    /// A handle holds no client's session.
    NoClient,
    /// A handle holds no early votes.
    NoVotes,
    /// A handle holds nothing that a replica sends again.
    NoRepeats,
    /// A handle holds no audit.
    NoAudit,
    /// A handle holds no ledger.
    NoLedger,
    /// The kind of what a replica did is neither 0 nor 1.
    NoItem,
    /// A key isn't 60 bytes that begin with 1 or 2 levels.
    NoKey,
    /// A seed hasn't 48 bytes.
    NoSeed,
    /// A height is neither 5 nor 10.
    NoHeight,
    /// The key has fewer leaves.
    NoLeaf,
    /// No such replica or client is listed.
    NotListed,
    /// Another key is listed than that of the seed.
    OtherKey,
    /// The last step gave no row.
    NoRow,
    /// The row has no such entry.
    NoEntry,
    /// The replica has no state any more: it has halted.
    NoState,
    /// A time is greater than 2^63.
    NoTime,
    /// An operation has more than 1,048,576 bytes.
    OperationTooLong,
    /// The session has made no request.
    NoRequest,
    /// No reply to the last request is accepted yet.
    NoReply,
    /// The configuration has a fault.
    Config(ConfigFault),
    /// The bytes are no message.
    Codec(CodecFault),
    /// The bytes are no message that the configuration takes.
    Unopened(SealFault),
    /// The replica has halted.
    Halted(Halt),
    /// The session makes no request.
    Session(SessionFault),
}

impl Status {
    /// The status by its number.
    pub fn number(self) -> u32
        ensures { result ≡ number_of self }
    {
        match self {
            Status::Done => DONE,
            Status::Memory => 21,
            Status::BufferTooShort => BUFFER_TOO_SHORT,
            Status::NoDraft => 51,
            Status::NoConfig => 52,
            Status::NoReplica => 53,
            Status::NoClient => 54,
            Status::NoVotes => 68,
            Status::NoRepeats => 69,
            Status::NoAudit => 70,
            Status::NoLedger => 80,
            Status::NoItem => 81,
            Status::NoKey => 55,
            Status::NoSeed => 56,
            Status::NoHeight => 57,
            Status::NoLeaf => 58,
            Status::NotListed => 59,
            Status::OtherKey => 60,
            Status::NoRow => 61,
            Status::NoEntry => 62,
            Status::NoState => 63,
            Status::NoTime => 64,
            Status::OperationTooLong => 65,
            Status::NoRequest => 66,
            Status::NoReply => 67,
            Status::Config(fault) => 70 + u32::from(fault.number()),
            Status::Codec(fault) => 110 + u32::from(fault.number()),
            Status::Unopened(fault) => 100 + u32::from(fault.number()),
            Status::Halted(halt) => 200 + u32::from(halt.number()),
            Status::Session(fault) => 300 + u32::from(fault.number()),
        }
    }
}

impl From<JoinFault> for Status {
    ghost use Rattle.std.specs.Prelude.{◌≡◌};
    ghost use Rattle.member_calls.specs.Statuses.{of_joining};

    ghost from_gives = { λ fault gives. gives ≡ of_joining fault };

    fn from(fault: JoinFault) -> Status {
        match fault {
            JoinFault::NotListed => Status::NotListed,
            JoinFault::OtherKey => Status::OtherKey,
            JoinFault::Memory => Status::Memory,
        }
    }
}

impl From<SealFault> for Status {
    ghost use Rattle.std.specs.Prelude.{◌≡◌};
    ghost use Rattle.member_calls.specs.Statuses.{of_opening};

    ghost from_gives = { λ fault gives. gives ≡ of_opening fault };

    fn from(fault: SealFault) -> Status {
        match fault {
            SealFault::Memory => Status::Memory,
            SealFault::Codec(fault) => Status::Codec(fault),
            fault => Status::Unopened(fault),
        }
    }
}

impl From<StepFault> for Status {
    ghost use Rattle.std.specs.Prelude.{◌≡◌};
    ghost use Rattle.member_calls.specs.Statuses.{of_step};

    ghost from_gives = { λ fault gives. gives ≡ of_step fault };

    fn from(fault: StepFault) -> Status {
        match fault {
            StepFault::Unopened(fault) => Status::from(fault),
            StepFault::Halted(halt) => Status::Halted(halt),
        }
    }
}
