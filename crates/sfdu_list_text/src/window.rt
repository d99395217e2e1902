// The window onto the stream: what stands at a place of it, and the listing of one more piece of the stream.
ghost use Rattle.std.specs.Prelude.{◌≡◌, ◌+◌, ◌≤◌, ◌<◌, ◌^◌, length};
ghost use Rattle.streaming.specs.Listing.{Lists};
ghost use Rattle.sfdu.specs.Read.{fault_words, read_one};
ghost use Rattle.sfdu_list_text.specs.Listing.{buffer_size};
ghost use Rattle.sfdu_list_text.specs.Window.{most_text, of_streams};
ghost use Rattle.sfdu_list_text.specs.inner.Window.{seen, found_in, Drains, Ready};

use crate::{Drained, Found, lines};
use sfdu::Fault;
use streaming::{State, window};

// The record at the start of `s`, which is the window from a place of the stream on. `last` says that the stream ends with the window.
fn judge(s: &[u8], place: u64, last: bool) -> Found
    requires { (length s.now ≤ buffer_size) × (place + length s.now < 2 ^ 64) }
    ensures { seen result ≡ found_in place s.now last }
{
    match sfdu::read_one(s) {
        Ok(record) => Found::Record {
            kind: record.kind,
            size: record.size,
            number: sfdu_headers::record_number(s, record.kind),
        },
        Err(fault) => stop(s, place, last, fault),
    }
}

// The same where read one refuses. A count of bytes is given only where the stream ends with the window; where nothing is left of the
// stream, that is its end.
fn stop(s: &[u8], place: u64, last: bool, fault: Fault) -> Found
    requires { (length s.now ≤ buffer_size) × (place + length s.now < 2 ^ 64) × (fault_words fault ≡ read_one s.now) }
    ensures { seen result ≡ found_in place s.now last }
{
    let stop = window::stop_in(s, place, fault);
    if window::is_count(stop.refusal) & !last {
        return Found::More;
    }
    if s.len() == 0 {
        return Found::Stop(None);
    }
    Found::Stop(Some(stop))
}

// Writes a line for each whole record of the window, from index `start` of `out` on; and the last line if the listing is done. `place` is the place
// of the window's first byte.
fn drain(w: &[u8], place: u64, last: bool, out: &mut [u8], start: usize) -> Drained
    requires { (length w.now ≤ buffer_size) × (place + buffer_size < 2 ^ 64) × (start + most_text ≤ length out.old) }
    ensures { Drains w.now place last out.old out.new start result }
{
    let mut at = 0;
    let mut end = start;
    // By index, since each turn goes on by as many bytes as its record has.
    loop {
        let here = place + at as u64;
        let found = judge(&w[at..], here, last);
        match found {
            Found::Record { kind, size, number } => {
                end = lines::put_line(out, end, here, size, kind, number);
                at += size;
            }
            Found::More => {
                return Drained {
                    used: at,
                    end,
                    done: false,
                };
            }
            Found::Stop(stop) => {
                end = lines::put_last(out, end, here, stop);
                return Drained {
                    used: at,
                    end,
                    done: true,
                };
            }
        }
    }
}

// `got` bytes of the stream were read into the window behind the bytes there; 0 if the stream has ended. Writes their lines behind the text, and
// moves the bytes that are left to the window's start.
pub fn list_piece(w: &mut [u8], out: &mut [u8], s: State, got: usize) -> State
    requires { Ready w.old out.old s got }
    ensures { Lists of_streams w.old out.old s got w.new out.new result }
{
    let held = s.have + got;
    let d = drain(&w[..held], s.place, got == 0, out, s.text);
    let used = d.used;
    let left = held - used;
    octets::copy(w, used, 0, left);
    State {
        place: s.place + used as u64,
        have: left,
        text: d.end,
        done: d.done,
    }
}
