// One record: its label, its blocks and its parts. It is a telemetry record or one of the radio science receiver (RSR).

#![tactic(auto)]

mod faults;
mod kinds;
mod label;
pub mod nesting;
mod reader;
mod whole;

pub use kinds::UnknownKind;
pub use reader::{data_part, read_one, secondary_part};
use refusals::Refusal;
pub use whole::whole_size;

// The numbers are those of the kinds in calls and answers.
#[derive(Clone, Copy, PartialEq, Eq)]
pub enum Kind {
    Telemetry = 1,
    Rsr = 2,
}

// The value of the primary block.
#[derive(Clone, Copy)]
pub struct Primary {
    pub major: u8,
    pub minor: u8,
    pub mission: u8,
    pub format: u8,
}

// What read one finds: the record's kind, its length in bytes (document 01's N) and its primary value.
#[derive(Clone, Copy)]
pub struct Record {
    pub kind: Kind,
    pub size: usize,
    pub primary: Primary,
}

// A refusal and its second number. For `TooShort` and `Truncated` that is how many bytes the slice has. For others it is the offset, from the
// record's start, of the first byte of the wrong field.
#[derive(Clone, Copy)]
pub struct Fault {
    pub refusal: Refusal,
    pub at: usize,
}

// A refusal of a call that reads a record first: a fault of the record, or a refusal that has no second number.
#[derive(Clone, Copy)]
pub enum RecordRefusal {
    Fault(Fault),
    Alone(Refusal),
}
