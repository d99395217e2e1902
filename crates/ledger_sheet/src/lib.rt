// The bytes of the ledger sheet (document 01, "The ledger sheet"; document 02, request 10): its sizes and offsets, and the test whether a slice is a
// right sheet.

#![tactic(auto)]

pub mod right;

ghost use Rattle.std.specs.Prelude.{◌≡◌, ◌≤◌, ◌<◌};
ghost use Rattle.ledger_sheet.specs.Sheet.{row_count, desk_count, row_at, desk_at};

// A row: used flag, key, first number, ticks. There are 32, the first at offset 24.
pub const USED_WORD: usize = 4;

pub const USED: u64 = 1;

pub const KEY_AT: usize = USED_WORD;

pub const KEY: usize = 8;

pub const FIRST_AT: usize = KEY_AT + KEY;

pub const FIRST: usize = 4;

pub const TICKS_AT: usize = FIRST_AT + FIRST;

pub const TICKS: usize = 128;

pub const ROW: usize = TICKS_AT + TICKS;

pub const ROWS: usize = 32;

pub const ROWS_AT: usize = 24;

// A byte of ticks holds eight positions.
pub const BYTE_BITS: usize = 8;

// A desk: 1 if it is open, its row, two zeros, the row as opened, the row as worked on. There are eight, behind the rows.
pub const CLOSED: u8 = 0;

pub const OPEN: u8 = 1;

pub const DESK_ROW_AT: usize = 1;

pub const DESK_ZEROS_AT: usize = 2;

pub const DESK_ZEROS: usize = 2;

pub const OPENED_AT: usize = DESK_ZEROS_AT + DESK_ZEROS;

pub const WORKED_AT: usize = OPENED_AT + ROW;

pub const DESK: usize = WORKED_AT + ROW;

pub const DESKS: usize = 8;

pub const DESKS_AT: usize = ROWS_AT + ROW * ROWS;

pub const SHEET: usize = DESKS_AT + DESK * DESKS;

// The header: six numbers of 4 bytes.
pub const NUMBER: usize = 4;

pub const LENGTH_AT: usize = 0;

pub const USED_AT: usize = 4;

pub const ROW_COUNT_AT: usize = 8;

pub const ROWS_OFFSET_AT: usize = 12;

pub const DESK_COUNT_AT: usize = 16;

pub const DESKS_OFFSET_AT: usize = 20;

// The offset of row i. For i = ROWS, the offset where the rows end.
pub fn row_at(i: usize) -> usize
    requires { i ≤ row_count }
    ensures { result ≡ row_at i }
{
    ROWS_AT + ROW * i
}

// The offset of desk d.
pub fn desk_at(d: usize) -> usize
    requires { d < desk_count }
    ensures { result ≡ desk_at d }
{
    DESKS_AT + DESK * d
}

// A row, or a desk's copy of one.
#[derive(Clone, Copy)]
pub struct Row {
    pub key: u64,
    pub first: u32,
    pub ticks: [u8; TICKS],
}

// A row report: how many positions are ticked; and what is missing, if anything is.
#[derive(Clone, Copy)]
pub struct Report {
    pub ticked: u32,
    pub gaps: Option<Gaps>,
}

// How many positions of a row are missing, and the number at the lowest of them.
#[derive(Clone, Copy)]
pub struct Gaps {
    pub missing: u32,
    pub lowest: u32,
}

// The stream of a row: its key, and the row's first number.
#[derive(Clone, Copy)]
pub struct Stream {
    pub key: u64,
    pub first: u32,
}

// What a desk works on: its row, and whether a save would be stale now.
// A flag, since it is the answer to a question that has two, and the row is there in either case.
#[derive(Clone, Copy)]
pub struct Working {
    pub row: u32,
    pub stale: bool,
}

// How many ticks and unticks a desk has not saved.
#[derive(Clone, Copy)]
pub struct Unsaved {
    pub ticks: u32,
    pub unticks: u32,
}

// A gap: a missing number and its row.
#[derive(Clone, Copy)]
pub struct Gap {
    pub number: u32,
    pub row: u32,
}
