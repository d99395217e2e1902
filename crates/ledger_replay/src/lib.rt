// Replays a night's calls from a trace, over a fresh sheet (document 02, request 11) or over a sheet as it is.

#![tactic(auto)]

mod calls;
mod trace;

ghost use Rattle.std.specs.Prelude.{◌≡◌, ◌≤◌, ◌∷◌, true, length};
ghost use Rattle.ledger_replay.specs.Trace.{header_size, most_entries, count, entry_at, lines_right};
ghost use Rattle.ledger_replay.specs.inner.Making.{IsLaid};
ghost use Rattle.ledger_replay.specs.inner.Numbered.{call_numbered};
ghost use Rattle.ledger_replay.specs.Replay.{replayed_words, difference_words, played, replay_on, replay_on_sheet};

use ledger_sheet as sheet;
use ledger_sheet::right;
use refusals::Refusal;

// The header: three numbers of 4 bytes.
pub const LENGTH_AT: usize = 0;

pub const COUNT_AT: usize = 4;

pub const START_AT: usize = 8;

pub const HEADER: usize = 12;

pub const MOST_ENTRIES: u32 = 4000;

// An entry: call, desk, row, answer number, record number, key.
pub const DESK_AT: usize = 1;

pub const ROW_AT: usize = 2;

pub const ANSWER_AT: usize = 3;

pub const RECORD_AT: usize = 4;

pub const KEY_AT: usize = 8;

pub const KEY: usize = 8;

pub const ENTRY: usize = 16;

// The numbers of the calls.
pub const ENROL: u8 = 1;

pub const OPEN: u8 = 2;

pub const TICK: u8 = 3;

pub const UNTICK: u8 = 4;

pub const SAVE: u8 = 5;

pub const DROP: u8 = 6;

pub const STRIKE: u8 = 7;

// The calls that a trace keeps.
#[derive(Clone, Copy)]
pub enum Call {
    Enrol,
    Open,
    Tick,
    Untick,
    Save,
    Drop,
    Strike,
}

// The call that a byte of a trace names. A slice with any other byte there is no trace.
impl TryFrom<u8> for Call {
    type Error = Refusal;

    ghost try_from_gives = { λ number answer. answer ≡ call_numbered number };

    fn try_from(number: u8) -> Result<Call, Refusal> {
        // A switch, since a trace has its calls as bytes: here each becomes a call, once.
        match number {
            ENROL => Ok(Call::Enrol),
            OPEN => Ok(Call::Open),
            TICK => Ok(Call::Tick),
            UNTICK => Ok(Call::Untick),
            SAVE => Ok(Call::Save),
            DROP => Ok(Call::Drop),
            STRIKE => Ok(Call::Strike),
            _ => Err(Refusal::NotTrace),
        }
    }
}

// The fields of an entry.
#[derive(Clone, Copy)]
pub struct Line {
    pub call: Call,
    pub desk: u8,
    pub row: u8,
    pub answer: u8,
    pub number: u32,
    pub key: u64,
}

// The first entry whose call answers otherwise than the trace says, counted from 0; and what its call answered: the row of an accepted enrolment, 0
// for any other accepted call, or the refusal.
#[derive(Clone, Copy)]
pub struct Difference {
    pub entry: u32,
    pub answer: Result<u32, Refusal>,
}

// Replays a trace: makes the sheet fresh, then the calls in order, up to the first whose answer differs from the trace's.
pub fn replay(t: &[u8], s: &mut [u8]) -> Result<Option<Difference>, Refusal>
    ensures { (replayed_words result, s.new) ≡ replay_on t.now s.old }
{
    if s.len() != sheet::SHEET {
        return Err(Refusal::NotSheet);
    }
    if !trace::is_trace(t) {
        return Err(Refusal::NotTrace);
    }
    ledger::fresh(s)?;
    Ok(play(t, s))
}

// Replays a trace over the sheet as it is. A long log is replayed in pieces with it.
pub fn replay_on(t: &[u8], s: &mut [u8]) -> Result<Option<Difference>, Refusal>
    ensures { (replayed_words result, s.new) ≡ replay_on_sheet t.now s.old }
{
    if !right::is_sheet(s) {
        return Err(Refusal::NotSheet);
    }
    if !trace::is_trace(t) {
        return Err(Refusal::NotTrace);
    }
    Ok(play(t, s))
}

// Makes the calls of a trace on a sheet, up to the first whose answer differs from the trace's.
// Said in each, since a trace is a lent slice that is judged once: a type around it would be built in `replay` and taken apart at each read.
fn play(t: &[u8], s: &mut [u8]) -> Option<Difference>
    requires whole { (header_size ≤ length t.now) × (entry_at (count t.now) ≤ length t.now) × (count t.now ≤ most_entries) }
    requires lines { lines_right t.now ≡ true }
    requires laid { IsLaid s.old }
    ensures { (0 ∷ difference_words result, s.new) ≡ played t.now s.old }
{
    let entries = trace::entry_count(t);
    // Goes by index: an entry's number is part of the answer. `chunks_exact` with `enumerate` has yet to be tried.
    for i in 0..entries {
        let x = trace::read_line(t, HEADER + ENTRY * i).unwrap();
        let answer = calls::make(s, x);
        if !calls::is_written(x, answer) {
            return Some(Difference {
                entry: i as u32,
                answer,
            });
        }
    }
    None
}
