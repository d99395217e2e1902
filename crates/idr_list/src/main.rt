// Lists medium band tapes: the files that its arguments name, one after the other, or standard input if there are none. `idr_list_text` does the work
// on slices, and `streaming::listing` makes the calls of the system.

#![tactic(auto)]

ghost use Rattle.idr_list_text.specs.Run.{of_tapes};

use streaming::listing::Lister;
use streaming::{State, listing};

const USAGE: &str = "\
usage: idr_list [FILE ..]\n\
Lists medium band tapes: a line for each record, then where the tape stopped and why.\n\
With no FILE it lists standard input; with several, each stands under a line with its name.\n";

struct Tapes;

impl Lister for Tapes {
    ghost listing = { of_tapes };

    fn begin(out: &mut [u8]) -> State {
        idr_list_text::begin(out)
    }

    // Twice, since each program hands its own text crate to the one listing.
    fn list_piece(w: &mut [u8], out: &mut [u8], s: State, got: usize) -> State {
        idr_list_text::list_piece(w, out, s, got)
    }
}

// A fixed array, since a program's buffers have a fixed size, on the stack. Twice, since each listing program has a `main` of its own.
fn main(rt: HostRuntime) {
    let mut window = [0u8; idr::RECORD];
    listing::run::<Tapes>(&rt, &mut window, USAGE);
}
