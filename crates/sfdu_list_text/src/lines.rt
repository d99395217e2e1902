// The lines of a listing. Each function writes its text into a lent slice from index `at` on, and gives the index behind it.
ghost use Rattle.std.specs.Prelude.{◌≡◌, ◌+◌, ◌≤◌, length, [], ◌∷◌};
ghost use Rattle.sfdu.specs.Nesting.{kind_number};
ghost use Rattle.sfdu_list_text.specs.Listing.{buffer_size};
ghost use Rattle.sfdu_list_text.specs.Text.{letter, heading, line, last_line, most_last};
ghost use Rattle.sfdu_list_text.specs.inner.Room.{most_line, line_room};
ghost use Rattle.streaming.specs.Run.{begun};
ghost use Rattle.text.specs.Text.{space, Puts};
ghost use Rattle.sfdu_list_text.specs.Window.{of_streams};
ghost use Rattle.sfdu_list_text.specs.inner.Window.{number_told, beside_told};

use sfdu::Kind;
use streaming::State;
use streaming::window::Stop;

// Writes the first line. Gives the state of a listing that has read nothing yet.
pub fn begin(out: &mut [u8]) -> State
    requires { length heading ≤ length out.old }
    ensures { (result ≡ begun of_streams) × Puts out.old out.new 0 result.text heading }
{
    let end = text::put_text(out, 0, b"place length kind number\n");
    State {
        place: 0,
        have: 0,
        text: end,
        done: false,
    }
}

fn put_letter(out: &mut [u8], at: usize, kind: Kind) -> usize
    requires { at + 2 ≤ length out.old }
    ensures { Puts out.old out.new at result (letter (kind_number kind) ∷ space ∷ []) }
{
    match kind {
        Kind::Telemetry => text::put_text(out, at, b"T "),
        Kind::Rsr => text::put_text(out, at, b"R "),
    }
}

// Writes the line of a record.
pub(crate) fn put_line(
    out: &mut [u8],
    at: usize,
    place: u64,
    size: usize,
    kind: Kind,
    number: u32,
) -> usize
    requires { (at + line_room ≤ length out.old) × (size ≤ buffer_size) }
    ensures puts { Puts out.old out.new at result (line place size (kind_number kind) number) }
    ensures upper_bound { result ≤ at + most_line }
{
    let a = text::put_numeral(out, at, place, text::SPACE);
    let b = text::put_numeral(out, a, size as u64, text::SPACE);
    let c = put_letter(out, b, kind);
    text::put_numeral(out, c, number as u64, text::LINE_END)
}

// Writes the last line: the stop place, the stop number, and its second number.
pub(crate) fn put_last(out: &mut [u8], at: usize, place: u64, stop: Option<Stop>) -> usize
    requires { at + most_last ≤ length out.old }
    ensures puts { Puts out.old out.new at result (last_line place (number_told stop ∷ beside_told stop ∷ [])) }
    ensures upper_bound { result ≤ at + most_last }
{
    let (number, beside) = numbers(stop);
    put_numbers(out, at, place, number, beside)
}

fn put_numbers(out: &mut [u8], at: usize, place: u64, number: u32, beside: u64) -> usize
    requires { at + most_last ≤ length out.old }
    ensures puts { Puts out.old out.new at result (last_line place (number ∷ beside ∷ [])) }
    ensures upper_bound { result ≤ at + most_last }
{
    let a = text::put_numeral(out, at, place, text::SPACE);
    let b = text::put_numeral(out, a, number as u64, text::SPACE);
    text::put_numeral(out, b, beside, text::LINE_END)
}

// The stop number and its second number, both 0 at the stream's end.
fn numbers(stop: Option<Stop>) -> (u32, u64)
    ensures { (result.0 ≡ number_told stop) × (result.1 ≡ beside_told stop) }
{
    match stop {
        None => (0, 0),
        Some(stop) => (refusals::number(stop.refusal), stop.beside),
    }
}
