// The tape listing on lent slices: the line of a record, and the last line.

#![tactic(auto)]

mod lines;
mod records;

pub use lines::begin;
pub use records::list_piece;

// Where the text ends, and whether it is the last line. (Public because the prover needs it.)
// A flag, since the text ends where the end says, on the last line and on any other.
#[derive(Clone, Copy)]
pub struct Listed {
    pub end: usize,
    pub done: bool,
}
