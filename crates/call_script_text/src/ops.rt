// The ops of a script, each named after its call. docs/call-script.md says what each takes and what its line has.

// The numbers are those of the ops in frames.
#[derive(Clone, Copy, PartialEq, Eq)]
pub enum Op {
    ReadOne = 1,
    SecondaryPart = 2,
    DataPart = 3,
    ReadHeaders = 4,
    WriteOne = 5,
    TelemetryKey = 6,
    RsrKey = 7,
    Walk = 8,
    ListNumbers = 9,
    KeyParts = 10,
    Step = 11,
    DateOf = 12,
    Unpack = 13,
    Pack = 14,
    Gain = 15,
    ReadTape = 16,
    WriteTape = 17,

    // The first op on the sheet. It makes the sheet as long as the frame's first run.
    NewSheet = 19,
    Fresh = 20,
    Enrol = 21,
    Find = 22,
    Open = 23,
    Tick = 24,
    Untick = 25,
    Save = 26,
    Drop = 27,
    RowReport = 28,
    FirstGap = 29,
    Strike = 30,

    // This op makes the sheet as long as the frame says.
    Convert = 31,
    Replay = 32,
    Season = 33,
    Row = 34,
    Desk = 35,
    MissingNumbers = 36,
    Receive = 37,
    ReplayOn = 38,

    // The first op on the settings. It makes them as long as the frame's first run.
    NewSettings = 39,
    MakeEmpty = 40,
    Add = 41,
    Ask = 42,
}

// A number that no op has.
#[derive(Clone, Copy)]
pub struct UnknownOp;

impl TryFrom<u32> for Op {
    type Error = UnknownOp;

    fn try_from(number: u32) -> Result<Op, UnknownOp> {
        OPS.iter()
            .find(|op| **op as u32 == number)
            .copied()
            .ok_or(UnknownOp)
    }
}

const OPS: [Op; 41] = [
    Op::ReadOne,
    Op::SecondaryPart,
    Op::DataPart,
    Op::ReadHeaders,
    Op::WriteOne,
    Op::TelemetryKey,
    Op::RsrKey,
    Op::Walk,
    Op::ListNumbers,
    Op::KeyParts,
    Op::Step,
    Op::DateOf,
    Op::Unpack,
    Op::Pack,
    Op::Gain,
    Op::ReadTape,
    Op::WriteTape,
    Op::NewSheet,
    Op::Fresh,
    Op::Enrol,
    Op::Find,
    Op::Open,
    Op::Tick,
    Op::Untick,
    Op::Save,
    Op::Drop,
    Op::RowReport,
    Op::FirstGap,
    Op::Strike,
    Op::Convert,
    Op::Replay,
    Op::Season,
    Op::Row,
    Op::Desk,
    Op::MissingNumbers,
    Op::Receive,
    Op::ReplayOn,
    Op::NewSettings,
    Op::MakeEmpty,
    Op::Add,
    Op::Ask,
];
