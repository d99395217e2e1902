// The programs that list inputs: the files that their arguments name, one after the other, or standard input if there are none.
ghost use Rattle.std.specs.Prelude.{◌≡◌, ◌≤◌, length};
ghost use Rattle.text.specs.Text.{Puts};
ghost use Rattle.streaming.specs.Listing.{Listing, Lists};
ghost use Rattle.streaming.specs.Run.{begun};
ghost use Rattle.streaming.specs.Turn.{text_size, most_turns, Turns, Ends, EndsWhole};
ghost use Rattle.streaming.specs.inner.Turn.{Sized, Ready, Going, Round};

use crate::{Failure, NobodyReads, State, TURNS};
use std::io::Read;

// The length of the text's buffer.
const TEXT: usize = 65536;

// What a listing program does with the bytes that it read. It makes no system call.
pub trait Lister {
    ghost listing: { Listing };

    // The state of a listing of which nothing has been read; the first line is laid out.
    fn begin(out: &mut [u8]) -> State
        requires { length listing.heading ≤ length out.old }
        ensures { (result ≡ begun listing) × Puts out.old out.new 0 result.text listing.heading };

    // `got` bytes were read into the window behind the bytes there; 0 if the input has ended. Writes their lines behind the text.
    fn list_piece(w: &mut [u8], out: &mut [u8], s: State, got: usize) -> State
        requires { Ready listing w.old out.old s got }
        ensures { Lists listing w.old out.old s got w.new out.new result };
}

// Says that no turn is left.
fn give_up(rt: &HostRuntime, name: &[u8]) {
    failures::say(rt, name);
    failures::say(rt, b": too long to list\n");
}

// One turn: reads a piece and lists it, and writes the text if there is enough of it. What holds of the listing and of the window's length is said
// in each function, since both are the type parameter's: no array type can have the length `L.listing.window_size`.
fn take_turn<L: Lister, R: Read>(
    rt: &HostRuntime,
    from: &mut R,
    name: &[u8],
    w: &mut [u8],
    out: &mut [u8],
    s: &mut State,
) -> Result<(), Failure>
    requires { Sized L.listing × Going L.listing w.old out.old s.old }
    ensures { Turns L.listing w.old out.old s.old w.new out.new s.new result }
{
    let room = w.len();
    match crate::read_piece(from, w, s.have, room) {
        Err(failure) => {
            failure.tell(rt, name);
            Err(failure)
        }
        Ok(got) => {
            *s = L::list_piece(w, out, *s, got);
            crate::write_enough(rt, out, s)
        }
    }
}

// Lists an input from a state on. The caller writes the last text in the buffer.
fn list_from<L: Lister, R: Read>(
    rt: &HostRuntime,
    from: &mut R,
    name: &[u8],
    w: &mut [u8],
    out: &mut [u8],
    s: &mut State,
) -> Result<(), Failure>
    requires { Sized L.listing × Round L.listing w.old out.old s.old most_turns }
    ensures { Ends L.listing w.old out.old s.old w.new out.new s.new result }
{
    // By index, since a proved loop must end: it counts turns, and no turn reads the count.
    for _turn in 0..TURNS {
        take_turn::<L, R>(rt, from, name, w, out, s)?;
        let done = s.done;
        if done {
            return Ok(());
        }
    }
    give_up(rt, name);
    Ok(())
}

// Lists an input from its start. The window's length is said in each, since it is the type parameter's.
fn list_whole<L: Lister, R: Read>(
    rt: &HostRuntime,
    from: &mut R,
    name: &[u8],
    w: &mut [u8],
    out: &mut [u8],
    s: &mut State,
) -> Result<(), Failure>
    requires { Sized L.listing × (length w.old ≡ L.listing.window_size) × (length out.old ≡ text_size) }
    ensures { EndsWhole L.listing w.new out.new s.new result }
{
    *s = L::begin(out);
    list_from::<L, R>(rt, from, name, w, out, s)
}

// The same, with a buffer of its own for the text, of which it writes the last. Stops the program if nobody reads the listing any more.
// A fixed array, since a program's buffers have a fixed size, on the stack.
fn list<L: Lister, R: Read>(
    rt: &HostRuntime,
    from: &mut R,
    name: &[u8],
    w: &mut [u8],
) -> Result<(), NobodyReads>
    requires { Sized L.listing × (length w.old ≡ L.listing.window_size) }
{
    let mut text = [0u8; TEXT];
    let out: &mut [u8] = &mut text;
    let mut s = State {
        place: 0,
        have: 0,
        text: 0,
        done: false,
    };
    let listed = list_whole::<L, R>(rt, from, name, w, out, &mut s);
    let written = crate::write_text(rt, out, &mut s);
    crate::unless_unread(listed)?;
    crate::unless_unread(written)
}

// Lists the file that argument i names. If there are several, it first writes a line with the name.
// A fixed array, since a program's buffers have a fixed size, on the stack.
fn list_argument<L: Lister>(
    rt: &HostRuntime,
    i: usize,
    several: bool,
    w: &mut [u8],
) -> Result<(), NobodyReads>
    requires { Sized L.listing × (length w.old ≡ L.listing.window_size) }
{
    let mut path = [0u8; arguments::LONGEST];
    let Ok(mut opened) = arguments::open_at(rt, i, &mut path) else {
        return Ok(());
    };
    let name = &path[..opened.size];
    if several {
        crate::unless_unread(crate::write_name(rt, name))?;
    }
    list::<L, _>(rt, &mut opened.file, name, w)
}

// By index, since the system gives an argument by its index alone.
fn list_arguments<L: Lister>(
    rt: &HostRuntime,
    count: usize,
    w: &mut [u8],
) -> Result<(), NobodyReads>
    requires { Sized L.listing × (length w.old ≡ L.listing.window_size) }
{
    for i in 1..count {
        list_argument::<L>(rt, i, 2 < count, w)?;
    }
    Ok(())
}

// Lists the files that the arguments name, or standard input. `w` is the window that pieces are read into.
pub fn run<L: Lister>(rt: &HostRuntime, w: &mut [u8], usage: &str)
    requires { Sized L.listing × (length w.old ≡ L.listing.window_size) }
{
    let count = arguments::count(rt);
    if let Some(asked) = arguments::first_option(rt, count) {
        arguments::tell_usage(rt, asked, usage);
        return;
    }
    // Where nobody reads the listing any more, the program ends without a word.
    let _ = if count < 2 {
        list::<L, _>(rt, &mut rt.stdin(), b"standard input", w)
    } else {
        list_arguments::<L>(rt, count, w)
    };
}
