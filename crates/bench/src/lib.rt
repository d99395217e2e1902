// The calls that `reference bench` times. Its Rust program links them; it passes numbers, and slices as a pointer and a length.

#![tactic(auto)]

pub mod date;
pub mod few;
pub mod received;
pub mod replays;
pub mod samples;
pub mod sheets;
pub mod tapes;

ghost use Rattle.std.specs.Prelude.{◌≡◌, [], ◌∷◌, ◌+◌, ◌*◌, ◌^◌, get_or};
ghost use Rattle.ledger_sheet.specs.Words.{answer_words, report_values};
ghost use Rattle.sfdu_headers.specs.Headers.{read_headers};
ghost use Rattle.answers.specs.Numbers.{numbers_of};
ghost use Rattle.sfdu_stream.specs.Listing.{walked};
ghost use Rattle.ledger_sheet.specs.Sheet.{right};
ghost use Rattle.ledger_model.specs.Step.{Tick, Untick, Ask, RowReport};
ghost use Rattle.ledger_layout.specs.Layout.{call, on_sheet};
ghost use Rattle.bench.specs.inner.Digest.{xor_of, flag, counts, counted};

use ledger_sheet as sheet;
use ledger_sheet::Report;
use refusals::Refusal;

// The first word of an accepted answer; and the number that changes nothing.
const ACCEPTED: u64 = 0;

const NOTHING: u64 = 0;

// Uses every number of the answer, so that every field is read.
#[unsafe(no_mangle)]
pub extern "C" fn bench_read_headers(s: &[u8], wanted: u32) -> u64
    ensures { result ≡ xor_of (numbers_of (read_headers wanted s.now)) }
{
    let found = sfdu_headers::read_headers(s, wanted);
    xor_of(answers::records::headers(found))
}

// The exclusive or of the numbers. By index, since it goes from the last number back, as the definition does.
pub(crate) fn xor_of(numbers: [u64; answers::NUMBERS]) -> u64
    ensures { result ≡ xor_of numbers }
{
    let mut all = NOTHING;
    for i in (0..answers::NUMBERS).rev() {
        all ^= numbers[i];
    }
    all
}

#[unsafe(no_mangle)]
pub extern "C" fn bench_walk(s: &[u8]) -> u64
    ensures { result ≡ get_or (walked s.now) 0 0 }
{
    let found = sfdu_stream::walk(s);
    found.count as u64
}

#[unsafe(no_mangle)]
pub extern "C" fn bench_is_sheet(s: &[u8]) -> u64
    ensures { result ≡ flag (right s.now) }
{
    if ledger_sheet::right::is_sheet(s) {
        return 1;
    }
    0
}

#[unsafe(no_mangle)]
pub extern "C" fn bench_tick(s: &mut [u8], desk: u32, n: u32) -> u64
    ensures { (result ∷ [], s.new) ≡ on_sheet (call (Tick desk n)) s.old }
{
    said(ledger::tick(s, desk, n))
}

#[unsafe(no_mangle)]
pub extern "C" fn bench_untick(s: &mut [u8], desk: u32, n: u32) -> u64
    ensures { (result ∷ [], s.new) ≡ on_sheet (call (Untick desk n)) s.old }
{
    said(ledger::untick(s, desk, n))
}

// A number, since C takes it.
fn said(answer: Result<(), Refusal>) -> u64
    ensures { result ∷ [] ≡ answer_words answer }
{
    match answer {
        Ok(()) => 0,
        Err(why) => refusals::number(why) as u64,
    }
}

#[unsafe(no_mangle)]
pub extern "C" fn bench_report(s: &[u8], row: u32) -> u64
    ensures { result ≡ counts (on_sheet (call (Ask (RowReport row))) s.now).0 }
{
    match ledger::row_report(s, row) {
        Ok(report) => reported(report),
        Err(why) => refusals::number(why) as u64,
    }
}

// The counting alone: the report of a row of a slice that has a sheet's length. Does not check the sheet.
#[unsafe(no_mangle)]
pub extern "C" fn bench_count(s: &[u8], row: u32) -> u64
    ensures { result ≡ counted s.now row }
{
    let row = row as usize;
    if s.len() != sheet::SHEET {
        return NOTHING;
    }
    if row >= sheet::ROWS {
        return NOTHING;
    }
    reported(ledger_counts::row_report(s, row))
}

fn reported(report: Report) -> u64
    ensures { result ≡ counts (0 ∷ report_values report) }
{
    match report.gaps {
        None => packed(report.ticked, 0) ^ NOTHING,
        Some(gaps) => packed(report.ticked, gaps.missing) ^ gaps.lowest as u64,
    }
}

fn packed(ticked: u32, missing: u32) -> u64
    ensures { result ≡ ticked * 2 ^ 32 + missing }
{
    ticked as u64 * 4294967296 + missing as u64
}
