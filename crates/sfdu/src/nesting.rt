// The offsets of a record's parts (document 01, "How a record nests").
ghost use Rattle.std.specs.Prelude.{◌≡◌};
ghost use Rattle.sfdu.specs.Nesting.{kind_bytes, secondary_length, secondary_type, data_at, data_value_at, aggregation_length, least_label_length};

use crate::Kind;

// The label: three tags of four bytes, then how many bytes follow the label.
pub const AUTHORITY_AT: usize = 0;

pub const VERSION_CLASS_AT: usize = 4;

pub const KIND_AT: usize = 8;

pub const TAG: usize = 4;

pub const AUTHORITY: [u8; TAG] = *b"NJPL";

pub const VERSION_CLASS: [u8; TAG] = *b"2I00";

pub const TELEMETRY: [u8; TAG] = *b"0800";

pub const RSR: [u8; TAG] = *b"C997";

pub const LENGTH_AT: usize = 12;

pub const LENGTH: usize = 8;

pub const LABEL: usize = 20;

// A block: a label with a type and a length of two bytes each, then the value.
pub const WORD: usize = 2;

pub const BLOCK_LABEL: usize = 4;

pub const AGGREGATION_AT: usize = 20;

pub const PRIMARY_AT: usize = 24;

pub const PRIMARY_VALUE_AT: usize = 28;

pub const SECONDARY_AT: usize = 32;

pub const SECONDARY_VALUE_AT: usize = 36;

pub const PRIMARY_LENGTH: u64 = 4;

pub const AGGREGATION_TYPE: u64 = 1;

pub const PRIMARY_TYPE: u64 = 2;

pub const DATA_TYPE: u64 = 10;

pub const MOST_DATA: usize = 65535;

// The length and type of each kind's secondary block.
const TELEMETRY_SECONDARY: usize = 80;

const RSR_SECONDARY: usize = 220;

const TELEMETRY_SECONDARY_TYPE: u64 = 78;

const RSR_SECONDARY_TYPE: u64 = 104;

// The label's tag for each kind, as a number: 0800 and C997.
pub const TELEMETRY_TAG: u32 = 808988720;

pub const RSR_TAG: u32 = 1127823671;

// The label's tag for the kind, as bytes. By hand, since the number of a variant is the kind's number in calls.
pub fn kind_tag(kind: Kind) -> [u8; TAG]
    ensures { result ≡ kind_bytes kind }
{
    match kind {
        Kind::Telemetry => TELEMETRY,
        Kind::Rsr => RSR,
    }
}

// By hand, since the number of a variant is the kind's number in calls.
pub fn secondary_length(kind: Kind) -> usize
    ensures { result ≡ secondary_length kind }
{
    match kind {
        Kind::Telemetry => TELEMETRY_SECONDARY,
        Kind::Rsr => RSR_SECONDARY,
    }
}

// By hand, since the number of a variant is the kind's number in calls.
pub fn secondary_type(kind: Kind) -> u64
    ensures { result ≡ secondary_type kind }
{
    match kind {
        Kind::Telemetry => TELEMETRY_SECONDARY_TYPE,
        Kind::Rsr => RSR_SECONDARY_TYPE,
    }
}

// The data block follows the secondary block.
pub fn data_at(kind: Kind) -> usize
    ensures { result ≡ data_at kind }
{
    SECONDARY_VALUE_AT + secondary_length(kind)
}

pub fn data_value_at(kind: Kind) -> usize
    ensures { result ≡ data_value_at kind }
{
    data_at(kind) + BLOCK_LABEL
}

// The same for RSR records alone.
pub const RSR_DATA_VALUE_AT: usize = SECONDARY_VALUE_AT + RSR_SECONDARY + BLOCK_LABEL;

// The length of the aggregation's value: the primary and the secondary block.
pub fn aggregation_length(kind: Kind) -> u64
    ensures { result ≡ aggregation_length kind }
{
    (data_at(kind) - PRIMARY_AT) as u64
}

// The length that the label of a record with no data states.
pub fn least_label_length(kind: Kind) -> u64
    ensures { result ≡ least_label_length kind }
{
    (data_value_at(kind) - LABEL) as u64
}
