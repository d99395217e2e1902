// Row report, first gap, and how many positions of one row are ticked and of another are not. All work on the bytes of a sheet.

#![tactic(auto)]

ghost use Rattle.std.specs.Prelude.{◌≡◌, true, not, cond, ◌∷◌, ◌+◌, ◌*◌, ◌≤◌, ◌<◌, length, IfSome, MatchOption};
ghost use Rattle.ledger_model.specs.Counts.{first_gap_from};
ghost use Rattle.ledger_layout.specs.Layout.{book_of};
ghost use Rattle.std.specs.Int.Count.{ones};
ghost use Rattle.ledger_model.specs.Positions.{row_length, minus, size};
ghost use Rattle.ledger_sheet.specs.Sheet.{sheet_size, row_size, row_count, row_at, is_used};
ghost use Rattle.ledger_layout.specs.Ticks.{ticked_at, ticks_in};
ghost use Rattle.ledger_layout.specs.inner.Scans.{lowest_below};
ghost use Rattle.ledger_counts.specs.inner.Counts.{past_highest, number_at_position, report_words};
ghost use Rattle.ledger_sheet.specs.Words.{report_values, gap_values};
ghost use Rattle.ledger_counts.specs.inner.Blocks.{block_bits, block_count, last_block_at, IsBlock, TickedFrom, StartsAt, UntickedFirst};

use ledger_sheet as sheet;
use ledger_sheet::{Gap, Gaps, Report, right};
use octets::numbers;

// A block of ticks: its length in bytes, its positions, and how many blocks a row has.
const BLOCK: usize = 8;

pub const BLOCK_BITS: usize = sheet::BYTE_BITS * BLOCK;

const BLOCKS: usize = sheet::TICKS / BLOCK;

// Words are counted in groups of four. FULL is a block whose positions are all ticked.
const GROUP: usize = 4;

const GROUPS: usize = BLOCKS / GROUP;

const FULL: u64 = !0;

// The positions of a row.
const POSITIONS: usize = BLOCK_BITS * BLOCKS;

// The ticks of the 64 positions from 64 k on as one number: bit i is position 64 k + i. LLVM makes this one load.
// Said in each, since the contracts speak of the sheet's bytes and a row's offset (`ticked_at s.now a`): with the row's bytes as an array every caller
// would prove that these are the sheet's from that offset on.
pub fn tick_block(s: &[u8], a: usize, k: usize) -> u64
    requires { (a + row_size ≤ length s.now) × (k < block_count) }
    ensures { IsBlock s.now a k result }
{
    numbers::read_le_u64(s, a + sheet::TICKS_AT + BLOCK * k)
}

// How many ones the blocks of a group have. Most rows have mostly full blocks, and full blocks need no counting, for which baseline x86-64 has no
// instruction. In groups of four LLVM still counts the other blocks with vectors.
fn group_ones(first: u64, second: u64, third: u64, fourth: u64) -> u32
    ensures { result ≡ ones first + ones second + ones third + ones fourth }
{
    if first & second & third & fourth == FULL {
        return (BLOCK_BITS * GROUP) as u32;
    }
    u64::count_ones(first)
        + u64::count_ones(second)
        + u64::count_ones(third)
        + u64::count_ones(fourth)
}

// How many positions of the row at offset a are ticked.
pub fn ticked_count(s: &[u8], a: usize) -> u32
    requires { a + row_size ≤ length s.now }
    ensures { result ≡ size (ticks_in s.now a) }
{
    let mut count: u32 = 0;
    // By index, since a block is read by its number, as in every count here.
    for b in 0..GROUPS {
        let k = GROUP * b;
        let first = tick_block(s, a, k);
        let second = tick_block(s, a, k + 1);
        let third = tick_block(s, a, k + 2);
        let fourth = tick_block(s, a, k + 3);
        count += group_ones(first, second, third, fourth);
    }
    count
}

// How many positions are ticked in the row at offset a and not in the row at offset b.
pub fn ticked_beyond(s: &[u8], a: usize, b: usize) -> u32
    requires { (a + row_size ≤ length s.now) × (b + row_size ≤ length s.now) }
    ensures { result ≡ size (minus (ticks_in s.now a) (ticks_in s.now b)) }
{
    let mut count: u32 = 0;
    // By index, since each turn reads two places of one slice.
    for k in 0..BLOCKS {
        count += u64::count_ones(tick_block(s, a, k) & !tick_block(s, b, k));
    }
    count
}

// Whether the blocks between the first and the last are full. The loop has no early exit, so LLVM vectorizes it.
fn is_full_between(s: &[u8], a: usize) -> bool
    requires { a + row_size ≤ length s.now }
    ensures { result ≡ true → TickedFrom s.now a block_bits last_block_at }
{
    let mut all = FULL;
    // By index, since the first and the last block are left out, and a block is read by its number.
    for k in 1..BLOCKS - 1 {
        all &= tick_block(s, a, k);
    }
    all == FULL
}

// The position from which all positions of the row at offset a are ticked, if it is in the first block and none below it is ticked. Such a row needs
// no counting.
fn ticks_start(s: &[u8], a: usize) -> Option<usize>
    requires { a + row_size ≤ length s.now }
    ensures { IfSome result (λ i. (i < row_length) × StartsAt s.now a i) }
{
    if tick_block(s, a, BLOCKS - 1) != FULL {
        return None;
    }
    if !is_full_between(s, a) {
        return None;
    }
    let block = tick_block(s, a, 0);
    if block == 0 {
        return None;
    }
    let start = u64::trailing_zeros(block);
    if block >> start != FULL >> start {
        return None;
    }
    Some(start as usize)
}

// One more than the highest ticked position of the row at offset a; 0 if none is ticked. Unticked positions below it are missing.
pub fn ticks_end(s: &[u8], a: usize) -> usize
    requires { a + row_size ≤ length s.now }
    ensures { result ≡ past_highest row_length (ticked_at s.now a) }
{
    // By index, since the block's number gives the position.
    for k in (0..BLOCKS).rev() {
        let block = tick_block(s, a, k);
        if block != 0 {
            return BLOCK_BITS * (k + 1) - u64::leading_zeros(block) as usize;
        }
    }
    0
}

// The lowest unticked position of block k of the row at offset a.
fn unticked_in(s: &[u8], a: usize, k: usize) -> Option<usize>
    requires { (a + row_size ≤ length s.now) × (k < block_count) }
    ensures { MatchOption result (TickedFrom s.now a (block_bits * k) (block_bits * (k + 1))) (UntickedFirst s.now a k) }
{
    let unticked = !tick_block(s, a, k);
    if unticked == 0 {
        return None;
    }
    Some(BLOCK_BITS * k + u64::trailing_zeros(unticked) as usize)
}

// The lowest unticked position below `end` of the row at offset a.
fn lowest_unticked(s: &[u8], a: usize, end: usize) -> Option<usize>
    requires { (a + row_size ≤ length s.now) × (end ≤ row_length) }
    ensures { result ≡ lowest_below end (λ i. not (ticked_at s.now a i)) }
{
    // By index, since the block's number gives the position.
    for k in 0..BLOCKS {
        if let Some(at) = unticked_in(s, a, k) {
            if at < end {
                return Some(at);
            }
            return None;
        }
    }
    None
}

// The number at position i of the row at offset a.
pub fn number_in(s: &[u8], a: usize, i: usize) -> u32
    requires { (a + row_size ≤ length s.now) × (i < row_length) }
    ensures { result ≡ number_at_position s.now a i }
{
    let key = right::key_at(s, a);
    let first = right::first_at(s, a);
    ledger_model::number_at(key, first, i as u32)
}

// The report of the row at offset a. If no position below the end is missing, nothing needs counting.
fn counted_report(s: &[u8], a: usize) -> Report
    requires { a + row_size ≤ length s.now }
    ensures { 0 ∷ report_values result ≡ report_words s.now a }
{
    let end = ticks_end(s, a);
    if end == 0 {
        return Report {
            ticked: 0,
            gaps: None,
        };
    }
    let Some(at) = lowest_unticked(s, a, end) else {
        return Report {
            ticked: end as u32,
            gaps: None,
        };
    };
    let ticked = ticked_count(s, a);
    let gaps = Gaps {
        missing: end as u32 - ticked,
        lowest: number_in(s, a, at),
    };
    Report {
        ticked,
        gaps: Some(gaps),
    }
}

// The report of a row. Most rows lack no position, or only some at the start.
// Said in each, since who reads a sheet that a caller lends calls these with a slice, and would have to make it an array first.
pub fn row_report(s: &[u8], row: usize) -> Report
    requires { (length s.now ≡ sheet_size) × (row < row_count) }
    ensures { 0 ∷ report_values result ≡ report_words s.now (row_at row) }
{
    let a = sheet::row_at(row);
    let Some(start) = ticks_start(s, a) else {
        return counted_report(s, a);
    };
    let ticked = (POSITIONS - start) as u32;
    if start == 0 {
        return Report { ticked, gaps: None };
    }
    let gaps = Gaps {
        missing: start as u32,
        lowest: number_in(s, a, 0),
    };
    Report {
        ticked,
        gaps: Some(gaps),
    }
}

// The end of the ticks of a row; 0 if the place is free.
fn row_end(s: &[u8], row: usize) -> usize
    requires { (length s.now ≡ sheet_size) × (row < row_count) }
    ensures { result ≡ cond (is_used s.now row) (past_highest row_length (ticked_at s.now (row_at row))) 0 }
{
    if !right::is_used(s, row) {
        return 0;
    }
    ticks_end(s, sheet::row_at(row))
}

// The first missing number and its row. Goes through the rows in order, and through each row's blocks in order. A row whose lowest unticked position is
// not below its end has none missing.
pub fn first_gap(s: &[u8]) -> Option<Gap>
    requires { length s.now ≡ sheet_size }
    ensures { gap_values result ≡ first_gap_from 0 (book_of s.now).places }
{
    let mut gap = None;
    // By index, since the row's number is in the answer, and the block's number gives the position.
    'rows: for row in 0..sheet::ROWS {
        let a = sheet::row_at(row);
        let end = row_end(s, row);
        // Free places, of which a sheet may have many, are passed at once.
        if end == 0 {
            continue;
        }
        for k in 0..BLOCKS {
            if let Some(at) = unticked_in(s, a, k) {
                if at < end {
                    gap = Some(Gap {
                        number: number_in(s, a, at),
                        row: row as u32,
                    });
                    break 'rows;
                }
                continue 'rows;
            }
        }
    }
    gap
}
