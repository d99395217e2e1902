// The listing of a stream on lent slices: goes over a window onto the stream record by record, and writes a line of text for each.

#![tactic(auto)]

mod lines;
mod window;

pub use lines::begin;
use streaming::window::Stop;
pub use window::list_piece;

// What stands at a place of the window. (Public because the prover needs it.)
// Its own enum, since there are three outcomes: a record, too few bytes to say, and a stop.
#[derive(Clone, Copy)]
pub enum Found {
    Record {
        kind: sfdu::Kind,
        size: usize,
        number: u32,
    },
    // The window ends too early to say, and more of the stream may come.
    More,
    // Why the record there is refused; nothing at the stream's end.
    Stop(Option<Stop>),
}

// The result of listing a window: how many of its bytes are used, where the text ends, and whether the last line is there. (Public because the prover
// needs it.)
// A flag, since the counts beside it hold with the last line and without it.
#[derive(Clone, Copy)]
pub struct Drained {
    pub used: usize,
    pub end: usize,
    pub done: bool,
}
