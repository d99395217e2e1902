// Lists streams of records: the files that its arguments name, one after the other, or standard input if there are none. `sfdu_list_text` does the work
// on slices, and `streaming::listing` makes the calls of the system.

#![tactic(auto)]

ghost use Rattle.sfdu_list_text.specs.Window.{of_streams};

use streaming::listing::Lister;
use streaming::{State, listing, window};

const USAGE: &str = "\
usage: sfdu_list [FILE ..]\n\
Lists streams of records: a line for each record, then where the stream stopped and why.\n\
With no FILE it lists standard input; with several, each stands under a line with its name.\n";

struct Streams;

impl Lister for Streams {
    ghost listing = { of_streams };

    fn begin(out: &mut [u8]) -> State {
        sfdu_list_text::begin(out)
    }

    // Twice, since each program hands its own text crate to the one listing.
    fn list_piece(w: &mut [u8], out: &mut [u8], s: State, got: usize) -> State {
        sfdu_list_text::list_piece(w, out, s, got)
    }
}

// A fixed array, since a program's buffers have a fixed size, on the stack. Twice, since each listing program has a `main` of its own.
fn main(rt: HostRuntime) {
    let mut window = [0u8; window::WINDOW];
    listing::run::<Streams>(&rt, &mut window, USAGE);
}
