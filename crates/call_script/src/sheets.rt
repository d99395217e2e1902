// The lines of the calls on the ledger sheet.
use answers::places;
use call_script_text::{Frame, Op, crc, line};
use ledger_answers::{ledgers, replays};
use ledger_replay::Difference;
use refusals::Refusal;

// How many numbers an accepted answer has.
const DONE: usize = 1;

const ROW: usize = 2;

const REPORT: usize = 4;

const GAP: usize = 3;

const STREAM: usize = 3;

const DESK_ROW: usize = 2;

const REPLAYED: usize = 4;

// Makes the sheet the bytes of a.
pub(crate) fn new_sheet(a: &[u8], room: &mut [u8], out: &mut [u8], at: usize) -> usize {
    if room.len() < a.len() {
        return at;
    }
    octets::copy_in(a, room, 0);
    let end = line::number(out, at, call_script_text::ACCEPTED);
    line::number(out, end, u64::from(crc::crc(a)))
}

// Converts the old sheet a into n bytes, which become the sheet.
pub(crate) fn converted(a: &[u8], room: &mut [u8], n: usize, out: &mut [u8], at: usize) -> usize {
    if room.len() < n {
        return at;
    }
    let s = &mut room[..n];
    s.fill(call_script_text::FILL);
    let answer = answers::done(ledger_convert::convert(a, s));
    let end = line::told(out, at, &answer, DONE);
    line::number(out, end, u64::from(crc::crc(s)))
}

// Replays the trace t over a fresh sheet, or over the sheet as it is. The sheet is the first n bytes of its buffer.
pub(crate) fn replayed(
    op: Op,
    t: &[u8],
    room: &mut [u8],
    n: usize,
    out: &mut [u8],
    at: usize,
) -> usize {
    if room.len() < n {
        return at;
    }
    let s = &mut room[..n];
    let answer = replays::replayed(play(op, t, s));
    let end = line::told_or(out, at, &answer, REPLAYED, places::ENTRY, b"same");
    line::number(out, end, u64::from(crc::crc(s)))
}

fn play(op: Op, t: &[u8], s: &mut [u8]) -> Result<Option<Difference>, Refusal> {
    if op == Op::ReplayOn {
        return ledger_replay::replay_on(t, s);
    }
    ledger_replay::replay(t, s)
}

// Makes a call on the sheet.
pub(crate) fn call(f: Frame, s: &mut [u8], out: &mut [u8], at: usize) -> usize {
    match f.op {
        Op::Fresh => done(ledger::fresh(s), out, at),
        Op::Open => done(ledger::open(s, f.x, f.y), out, at),
        Op::Tick => done(ledger::tick(s, f.x, f.y), out, at),
        Op::Untick => done(ledger::untick(s, f.x, f.y), out, at),
        Op::Save => done(ledger::save(s, f.x), out, at),
        Op::Drop => done(ledger::drop(s, f.x), out, at),
        Op::Strike => done(ledger::strike(s, f.x), out, at),
        Op::Enrol => line::told(out, at, &ledgers::row(ledger::enrol(s, f.key, f.x)), ROW),
        _ => ask(f, s, out, at),
    }
}

fn done(answer: Result<(), Refusal>, out: &mut [u8], at: usize) -> usize {
    line::told(out, at, &answers::done(answer), DONE)
}

// The calls that change nothing.
fn ask(f: Frame, s: &[u8], out: &mut [u8], at: usize) -> usize {
    match f.op {
        Op::Find => line::told(out, at, &ledgers::row(ledger::find(s, f.key)), ROW),
        Op::RowReport => {
            let answer = ledgers::report(ledger::row_report(s, f.x));
            line::told_or(out, at, &answer, REPORT, places::LOWEST, b"none")
        }
        Op::Row => line::told(out, at, &ledgers::stream(ledger::row(s, f.x)), STREAM),
        Op::Desk => desk(s, f.x, out, at),
        Op::FirstGap => {
            let answer = ledgers::gap(ledger::first_gap(s));
            line::told_or(out, at, &answer, GAP, places::GAP_NUMBER, b"none")
        }
        _ => at,
    }
}

// A desk's row, or none; and for an open desk what it has not saved, and whether a save would be stale.
fn desk(s: &[u8], desk: u32, out: &mut [u8], at: usize) -> usize {
    let answer = ledgers::desk(ledger::desk(s, desk));
    let end = line::told_or(out, at, &answer, DESK_ROW, places::DESK_ROW, b"none");
    let unsaved = ledgers::unsaved(ledger::unsaved(s, desk));
    if unsaved[places::REFUSAL] != call_script_text::ACCEPTED {
        return end;
    }
    let ticks = line::number(out, end, unsaved[places::UNSAVED_TICKS]);
    let unticks = line::number(out, ticks, unsaved[places::UNSAVED_UNTICKS]);
    line::number(out, unticks, answer[places::DESK_STALE])
}
