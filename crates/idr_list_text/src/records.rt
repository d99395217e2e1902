// The line of what stands at a place of a tape.
ghost use Rattle.std.specs.Prelude.{true, ◌≡◌, ◌+◌, ◌≤◌, length};
ghost use Rattle.refusals.specs.Judge.{verdict};
ghost use Rattle.refusals.specs.Table.{number_of};
ghost use Rattle.text.specs.Text.{Puts};
ghost use Rattle.streaming.specs.Listing.{Lists};
ghost use Rattle.idr.specs.Words.{header};
ghost use Rattle.idr.specs.Read.{accepts, read_rules};
ghost use Rattle.idr_list_text.specs.Text.{source, most_line};
ghost use Rattle.idr_list_text.specs.inner.Room.{most_origin};
ghost use Rattle.idr_list_text.specs.Listing.{stop_number};
ghost use Rattle.idr_list_text.specs.Run.{of_tapes};
ghost use Rattle.idr_list_text.specs.inner.Lists.{number_told, ListsOne, Ready};

use crate::{Listed, lines};
use refusals::Refusal;
use streaming::State;

// The indices of words 1, 2 and 4.
const TAPE_WORD: usize = 0;

const NUMBER_WORD: usize = 1;

const SOURCE_WORD: usize = 3;

const BYTE: u16 = 256;

// `got` bytes of the tape were read into the window behind the bytes there; 0 if the tape has ended. Once there is a whole record, or the tape has
// ended, writes its line behind the text.
pub fn list_piece(w: &[u8], out: &mut [u8], s: State, got: usize) -> State
    requires { Ready w.now out.old s got }
    ensures { Lists of_tapes w.now out.old s got w.now out.new result }
{
    let held = s.have + got;
    if (got != 0) & (held < idr::RECORD) {
        return State {
            place: s.place,
            have: held,
            text: s.text,
            done: false,
        };
    }
    let listed = list_record(&w[..held], s.place, out, s.text);
    State {
        place: s.place + held as u64,
        have: 0,
        text: listed.end,
        done: listed.done,
    }
}

// Writes the line of `r`, which is a record, or less at the tape's end. `place` is the place of its first byte.
fn list_record(r: &[u8], place: u64, out: &mut [u8], at: usize) -> Listed
    requires { at + most_line ≤ length out.old }
    ensures lists_one { ListsOne r.now place out.old out.new at result }
    ensures end_bound { result.end ≤ at + most_line }
{
    match idr::read_record(r) {
        Ok(Some(tagged)) => {
            let a = put_source(out, at, place, r);
            let b = lines::put_time(out, a, tagged.time);
            let end = lines::put_reduction(out, b, tagged.reduction);
            Listed { end, done: false }
        }
        Ok(None) => {
            let a = put_source(out, at, place, r);
            let end = lines::put_untagged(out, a);
            Listed { end, done: false }
        }
        Err(why) => {
            let end = lines::put_last(out, at, place, stop(r, why));
            Listed { end, done: true }
        }
    }
}

// Writes the fields that every record has. A fixed array, since the text crates use no heap, and a record has 28 header words.
fn put_source(out: &mut [u8], at: usize, place: u64, r: &[u8]) -> usize
    requires { (at + most_origin ≤ length out.old) × (accepts r.now ≡ true) }
    ensures puts { Puts out.old out.new at result (source place (header r.now)) }
    ensures upper_bound { result ≤ at + most_origin }
{
    let mut w = [0u16; idr::HEADER];
    // The reader accepts the record, so its words are copied.
    let _ = idr::read_words(r, &mut w);
    lines::put_origin(
        out,
        at,
        place,
        w[TAPE_WORD] % BYTE,
        w[NUMBER_WORD],
        w[SOURCE_WORD] / BYTE,
        w[SOURCE_WORD] % BYTE,
    )
}

// Why the tape stops: for nothing if nothing of it is left.
fn stop(r: &[u8], why: Refusal) -> Option<Refusal>
    requires { number_of why ≡ verdict (read_rules r.now) }
    ensures { number_told result ≡ stop_number r.now }
{
    if r.is_empty() {
        return None;
    }
    Some(why)
}
