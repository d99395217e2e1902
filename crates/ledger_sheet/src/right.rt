// Whether a slice is a right sheet. Every call tests the whole sheet, so the loops over bytes have no early exit and LLVM vectorizes them.
ghost use Rattle.std.specs.Prelude.{◌≡◌, true, not, ◌&&◌, ◌+◌, ◌≤◌, ◌<◌, eqb, length, get_or};
ghost use Rattle.octets.specs.Octets.{all};
ghost use Rattle.keys.specs.Key.{valid_key};
ghost use Rattle.keys.specs.Numbers.{is_number};
ghost use Rattle.ledger_sheet.specs.Sheet.{sheet_size, row_size, row_count, desk_count, used, is_used, is_row};
ghost use Rattle.ledger_sheet.specs.Sheet.{key_at, first_number_at, desk_byte, header_right, desk_right, right};
ghost use Rattle.ledger_sheet.specs.inner.Judging.{rows_right, Zeros, RowsEnd, Marked};

use crate as sheet;
use octets::numbers;

// A key sets the mark at its remainder modulo 64. If a key's mark is not set, no key before it is the same.
const MARKS: usize = 64;

const MARKED: u8 = 1;

// A desk's copy has these bytes of its row: all before the ticks.
const CARRIED: usize = sheet::TICKS_AT;

pub fn is_sheet(s: &[u8]) -> bool
    ensures { result ≡ right s.now }
{
    let Ok(s) = <&[u8; sheet::SHEET]>::try_from(s) else {
        return false;
    };
    if !is_header(s) {
        return false;
    }
    let Some(zeros) = rows_end(s) else {
        return false;
    };
    are_desks(s, zeros)
}

fn is_header(s: &[u8; sheet::SHEET]) -> bool
    ensures { result ≡ header_right s.now }
{
    let size = numbers::read_be(s, sheet::LENGTH_AT, sheet::NUMBER) == sheet::SHEET as u64;
    let rows = numbers::read_be(s, sheet::ROW_COUNT_AT, sheet::NUMBER) == sheet::ROWS as u64;
    let rows_start = numbers::read_be(s, sheet::ROWS_OFFSET_AT, sheet::NUMBER)
        == sheet::ROWS_AT as u64;
    let desks = numbers::read_be(s, sheet::DESK_COUNT_AT, sheet::NUMBER) == sheet::DESKS as u64;
    let desks_start = numbers::read_be(s, sheet::DESKS_OFFSET_AT, sheet::NUMBER)
        == sheet::DESKS_AT as u64;
    size & rows & rows_start & desks & desks_start
}

// How many rows are used.
// Said in each, since who reads a sheet that a caller lends calls these three with a slice, and would have to make it an array first.
pub fn rows_used(s: &[u8]) -> usize
    requires { length s.now ≡ sheet_size }
    ensures { result ≡ used s.now }
{
    numbers::read_be(s, sheet::USED_AT, sheet::NUMBER) as usize
}

// Whether row i is used.
pub fn is_used(s: &[u8], i: usize) -> bool
    requires { (length s.now ≡ sheet_size) × (i < row_count) }
    ensures { result ≡ is_used s.now i }
{
    numbers::read_be(s, sheet::row_at(i), sheet::USED_WORD) == sheet::USED
}

// Whether there is a row with the number i.
pub fn is_row(s: &[u8], i: usize) -> bool
    requires { length s.now ≡ sheet_size }
    ensures { result ≡ is_row s.now i }
{
    if i >= sheet::ROWS {
        return false;
    }
    is_used(s, i)
}

// The key of the row, or the copy of a row, at offset a.
pub fn key_at(s: &[u8], a: usize) -> u64
    requires { a + row_size ≤ length s.now }
    ensures { result ≡ key_at s.now a }
{
    numbers::read_be(s, a + sheet::KEY_AT, sheet::KEY)
}

// The first number of the row, or the copy of a row, at offset a.
pub fn first_at(s: &[u8], a: usize) -> u32
    requires { a + row_size ≤ length s.now }
    ensures { result ≡ first_number_at s.now a }
{
    numbers::read_be(s, a + sheet::FIRST_AT, sheet::FIRST) as u32
}

// Tests rows until it has found as many used ones as the header counts. Used rows must have valid keys, all different, and first numbers of their
// streams; free rows must be zero. All rows behind these must be free: they and the closed desks behind them are tested as one range of zeros. Gives
// the index where that range begins, or none if a row is wrong.
fn rows_end(s: &[u8; sheet::SHEET]) -> Option<usize>
    ensures { RowsEnd s.now result }
{
    let used = rows_used(s);
    // A fixed array, since the library allocates nothing: a sheet has at most 32 keys.
    let mut keys = [0u64; sheet::ROWS];
    let mut marks = [0u8; MARKS];
    let mut found = 0;
    let mut right = true;
    let mut zeros = sheet::ROWS_AT;
    // By index, since a row is read by its offset, from which the zeros begin, too.
    for i in 0..sheet::ROWS {
        if found == used {
            break;
        }
        let row = sheet::row_at(i);
        if is_used(s, i) {
            let key = key_at(s, row);
            right &= is_stream(key, first_at(s, row));
            right &= is_new(&keys[..found], &marks, key);
            keys[found] = key;
            marks[(key % MARKS as u64) as usize] = MARKED;
            found += 1;
        } else {
            right &= octets::is_zero(s, row, sheet::ROW);
        }
        zeros = row + sheet::ROW;
    }
    if right & (found == used) {
        return Some(zeros);
    }
    None
}

// Whether the key is valid and its stream's records can have the number.
fn is_stream(key: u64, first: u32) -> bool
    ensures { result ≡ (valid_key key && is_number key first) }
{
    keys::valid(key) & keys::is_number(key, first)
}

// Whether the key is none of these, which have set their marks.
fn is_new(keys: &[u64], marks: &[u8; MARKS], key: u64) -> bool
    requires { Marked keys.now marks.now (length keys.now) }
    ensures { result ≡ all (length keys.now) (λ j. not (eqb (get_or keys.now j 0) key)) }
{
    if marks[(key % MARKS as u64) as usize] != MARKED {
        return true;
    }
    is_other(keys, key)
}

// Whether the key is none of these. The loop has no early exit, so LLVM vectorizes it; `contains` compares keys one at a time.
pub fn is_other(keys: &[u64], key: u64) -> bool
    ensures { result ≡ all (length keys.now) (λ j. not (eqb (get_or keys.now j 0) key)) }
{
    let mut other = true;
    for k in keys {
        other &= *k != key;
    }
    other
}

// Tests each open desk, and that the bytes between open desks and up to the sheet's end are zero.
fn are_desks(s: &[u8; sheet::SHEET], rows_end: usize) -> bool
    requires { Zeros s.now true rows_end }
    ensures { result ≡ (rows_right s.now && all desk_count (desk_right s.now)) }
{
    let mut right = true;
    let mut zeros = rows_end;
    // By index, since each turn reads at three places of one slice: the desk, the zeros before it, and the row that it names.
    for d in 0..sheet::DESKS {
        let desk = sheet::desk_at(d);
        if s[desk] != sheet::CLOSED {
            right &= octets::is_long_zero(s, zeros, desk - zeros);
            right &= is_open_desk(s, d);
            zeros = desk + sheet::DESK;
        }
    }
    right & octets::is_long_zero(s, zeros, sheet::SHEET - zeros)
}

// Whether an open desk is right: its first byte is 1, its two zeros are zero, its row is used, and both copies have that row's used flag, key and first number.
fn is_open_desk(s: &[u8; sheet::SHEET], d: usize) -> bool
    requires { (d < desk_count) × (desk_byte s.now d ≡ 0 → ⊥) }
    ensures { result ≡ desk_right s.now d }
{
    let a = sheet::desk_at(d);
    let row = s[a + sheet::DESK_ROW_AT] as usize;
    if !is_row(s, row) {
        return false;
    }
    let from = sheet::row_at(row);
    let open = s[a] == sheet::OPEN;
    let zeros = octets::is_zero(s, a + sheet::DESK_ZEROS_AT, sheet::DESK_ZEROS);
    let opened = octets::is_same(s, from, s, a + sheet::OPENED_AT, CARRIED);
    let worked = octets::is_same(s, from, s, a + sheet::WORKED_AT, CARRIED);
    open & zeros & opened & worked
}
