//! Why a transcript could not be read.

ghost use Rattle.std.specs.Prelude.{◌≡◌};
ghost use Rattle.hc_transcript.specs.declared.fault.RecordFault.TheVariants.{Memory};
ghost use Rattle.hc_transcript.specs.Reading.{message_fault, target_fault};

use hc_framing::FrameFault;
use hc_head::HeadFault;
use std::alloc::{AllocError, AllocFailed};
use thiserror::Error;

/// What is wrong with a transcript.
#[derive(Clone, Copy, Debug, PartialEq, Eq, Error)]
pub enum RecordFault {
    /// The octets don't begin with the opening of a transcript.
    #[error("no transcript begins so")]
    Opening,
    /// There is no line where a record begins, or no line feed behind its octets.
    #[error("a record's line is wrong")]
    Line,
    /// The octets end before the opening or the record does.
    #[error("the transcript is cut off")]
    Torn,
    /// The moment is earlier than the last.
    #[error("a moment is earlier than the last")]
    MomentBack,
    /// The number is out of range, or not greater than the last of its kind.
    #[error("a number is out of order")]
    Number,
    /// No exchange or forward of that number is open.
    #[error("nothing of that number is open")]
    NothingOpen,
    /// The octets are not one message of that kind: a request with a target, or a final response.
    #[error("the octets are not one message")]
    Message,
    /// The message is too long.
    #[error("a message is too long")]
    TooLong,
    /// Memory was refused.
    #[error("out of memory")]
    Memory,
    /// The cause of a forward is no open exchange.
    #[error("the cause of a forward is not open")]
    Cause,
}

impl RecordFault {
    ghost use Rattle.std.specs.Prelude.{◌≡◌};
    ghost use Rattle.hc_transcript.specs.Names.{fault_number, fault_name};

    /// The number that stands for the fault in reports.
    pub fn number(&self) -> u32
        ensures { result ≡ fault_number self.now }
    {
        match self {
            RecordFault::Opening => 1,
            RecordFault::Line => 2,
            RecordFault::Torn => 3,
            RecordFault::MomentBack => 4,
            RecordFault::Number => 5,
            RecordFault::NothingOpen => 6,
            RecordFault::Message => 7,
            RecordFault::TooLong => 8,
            RecordFault::Memory => 9,
            RecordFault::Cause => 11,
        }
    }

    /// The name that stands for the fault in reports.
    pub fn name(&self) -> &'static str
        ensures { result.now ≡ fault_name self.now }
    {
        match self {
            RecordFault::Opening => "Opening",
            RecordFault::Line => "Line",
            RecordFault::Torn => "Torn",
            RecordFault::MomentBack => "MomentBack",
            RecordFault::Number => "Number",
            RecordFault::NothingOpen => "NothingOpen",
            RecordFault::Message => "Message",
            RecordFault::TooLong => "TooLong",
            RecordFault::Memory => "Memory",
            RecordFault::Cause => "Cause",
        }
    }
}

/// A fault of the message that a record bears.
impl From<FrameFault> for RecordFault {
    ghost from_gives = { λ fault broken. broken ≡ message_fault fault };

    fn from(fault: FrameFault) -> RecordFault {
        match fault {
            FrameFault::Memory => RecordFault::Memory,
            _ => RecordFault::Message,
        }
    }
}

/// A fault of the target of the request that a record bears.
impl From<HeadFault> for RecordFault {
    ghost from_gives = { λ fault broken. broken ≡ target_fault fault };

    fn from(fault: HeadFault) -> RecordFault {
        match fault {
            HeadFault::Memory => RecordFault::Memory,
            _ => RecordFault::Message,
        }
    }
}

impl From<AllocError> for RecordFault {
    ghost from_gives = { λ _ e. e ≡ Memory };

    fn from(_e: AllocError) -> RecordFault {
        RecordFault::Memory
    }
}

impl<T: Drop> From<AllocFailed<T>> for RecordFault {
    ghost from_gives = { λ _ e. e ≡ Memory };

    fn from(_e: AllocFailed<T>) -> RecordFault {
        RecordFault::Memory
    }
}
