// Streams of records: a cursor, a walk, and how long a list of the records must be. `sfdu_lists` makes the lists.

#![tactic(auto)]

mod room;
mod walking;

pub use room::most_records;
pub use walking::{in_stream, walk};

// A place in a stream: an offset in bytes from its start.
#[derive(Clone, Copy)]
pub struct Cursor {
    pub at: usize,
}

// The answer of a step: the record at the cursor, nothing at the stream's end, or a refusal; and the cursor that the step gives back: moved past the
// record if there is one, else unmoved.
#[derive(Clone, Copy)]
pub struct Step {
    pub found: Result<Option<sfdu::Record>, sfdu::Fault>,
    pub next: Cursor,
}

// The answer of a walk or a list: how many whole records it found, the place where it stopped, and why: the stream's end, or a refusal. The refusal's
// offset counts from the stream's start; a full list has 0.
#[derive(Clone, Copy)]
pub struct Walked {
    pub count: usize,
    pub place: usize,
    pub stop: Result<(), sfdu::Fault>,
}

// An entry of a list: a record's place, its length in bytes, its kind's number and its record number. A number, since C reads the table of entries.
#[repr(C)]
#[derive(Clone, Copy)]
pub struct Entry {
    pub place: u64,
    pub length: u64,
    pub kind: u32,
    pub number: u32,
}
