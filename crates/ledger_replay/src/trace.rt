// Tests whether a slice is a trace, and reads its entries.
ghost use Rattle.std.specs.Prelude.{◌≡◌, ◌+◌, ◌≤◌, length};
ghost use Rattle.ledger_replay.specs.Trace.{header_size, entry_size, count, entry_at, line_at, header_right, line_right, lines_right, is_trace};
ghost use Rattle.ledger_replay.specs.inner.Numbered.{line_in};

use crate as replay;
use crate::{Call, Line};
use octets::numbers;
use refusals::Refusal;

pub(crate) fn is_trace(t: &[u8]) -> bool
    ensures { result ≡ is_trace t.now }
{
    if t.len() < replay::HEADER {
        return false;
    }
    if !is_header(t) {
        return false;
    }
    are_lines(t)
}

fn is_header(t: &[u8]) -> bool
    requires { header_size ≤ length t.now }
    ensures { result ≡ header_right t.now }
{
    let entries = numbers::read_u32(t, replay::COUNT_AT);
    let size = numbers::read_u32(t, replay::LENGTH_AT) as usize == t.len();
    let few = entries <= replay::MOST_ENTRIES;
    let filled = t.len() == replay::HEADER + replay::ENTRY * entries as usize;
    let start = numbers::read_u32(t, replay::START_AT) as usize == replay::HEADER;
    size & few & filled & start
}

pub(crate) fn entry_count(t: &[u8]) -> usize
    requires { header_size ≤ length t.now }
    ensures { result ≡ count t.now }
{
    numbers::read_u32(t, replay::COUNT_AT) as usize
}

fn are_lines(t: &[u8]) -> bool
    requires { (header_size ≤ length t.now) × (entry_at (count t.now) ≤ length t.now) }
    ensures { result ≡ lines_right t.now }
{
    let entries = entry_count(t);
    let mut right = true;
    // No early exit, so LLVM vectorizes the loop. By index, since an entry is read at an offset.
    for i in 0..entries {
        right &= is_line(t, replay::HEADER + replay::ENTRY * i);
    }
    right
}

// The entry at offset a. Refused if its number is no call's.
pub(crate) fn read_line(t: &[u8], a: usize) -> Result<Line, Refusal>
    requires { a + entry_size ≤ length t.now }
    ensures { result ≡ line_in (line_at t.now a) }
{
    let call = Call::try_from(t[a])?;
    Ok(Line {
        call,
        desk: t[a + replay::DESK_AT],
        row: t[a + replay::ROW_AT],
        answer: t[a + replay::ANSWER_AT],
        number: numbers::read_u32(t, a + replay::RECORD_AT),
        key: numbers::read_be(t, a + replay::KEY_AT, replay::KEY),
    })
}

// Whether the entry at offset a is right: its call is one of the seven, and each field that the call does not use is zero. Only an accepted enrolment has a
// row. By the bytes as they stand, since a call as an enum would cost a jump for each entry.
fn is_line(t: &[u8], a: usize) -> bool
    requires { a + entry_size ≤ length t.now }
    ensures { result ≡ line_right (line_at t.now a) }
{
    let call = t[a];
    let desk = t[a + replay::DESK_AT];
    let row = t[a + replay::ROW_AT];
    let answer = t[a + replay::ANSWER_AT];
    let number = numbers::read_u32(t, a + replay::RECORD_AT);
    let key = numbers::read_be(t, a + replay::KEY_AT, replay::KEY);
    let called = (replay::ENROL <= call) & (call <= replay::STRIKE);
    let desk_right = (desk == 0) | ((replay::OPEN <= call) & (call <= replay::DROP));
    let row_right = (row == 0)
        | (call == replay::OPEN)
        | (call == replay::STRIKE)
        | ((call == replay::ENROL) & (answer == 0));
    let number_right = (number == 0)
        | (call == replay::ENROL)
        | (call == replay::TICK)
        | (call == replay::UNTICK);
    let key_right = (key == 0) | (call == replay::ENROL);
    called & desk_right & row_right & number_right & key_right
}
