// Whether a slice is a right old sheet (document 01's layout, whose rows have no used flag).
ghost use Rattle.std.specs.Prelude.{◌≡◌, ◌&&◌, ◌+◌, ◌-◌, ◌≤◌, ◌<◌, length};
ghost use Rattle.octets.specs.Octets.{all};
ghost use Rattle.ledger_sheet.specs.Sheet.{row_count, desk_count, used};
ghost use Rattle.ledger_convert.specs.Old.{sheet_size, row_size, row_at, desk_at, key_at, first_number_at, desk_byte};
ghost use Rattle.ledger_convert.specs.Old.{header_right, valid_keys, different_keys, first_numbers, unused_zero, desk_right, right};
ghost use Rattle.ledger_convert.specs.inner.Sized.{Sized};
ghost use Rattle.ledger_sheet.specs.Sheet.{key_start};
ghost use Rattle.ledger_changes.specs.inner.Rows.{row_value_at};

use ledger_changes::rows;
use ledger_sheet as sheet;
use ledger_sheet::{Row, right};
use octets::numbers;

// An old row: key, first number, ticks.
const FIRST_AT: usize = sheet::KEY;

const TICKS_AT: usize = FIRST_AT + sheet::FIRST;

const ROW: usize = TICKS_AT + sheet::TICKS;

pub const WORKED_AT: usize = sheet::OPENED_AT + ROW;

const DESK: usize = WORKED_AT + ROW;

const DESKS_AT: usize = sheet::ROWS_AT + ROW * sheet::ROWS;

pub const SHEET: usize = DESKS_AT + DESK * sheet::DESKS;

// A desk's copy has these bytes of its row: all before the ticks.
const CARRIED: usize = TICKS_AT;

// The offset of row i. For i = ROWS, the offset where the rows end.
pub fn row_at(i: usize) -> usize
    requires { i ≤ row_count }
    ensures { result ≡ row_at i }
{
    sheet::ROWS_AT + ROW * i
}

// The offset of desk d.
pub fn desk_at(d: usize) -> usize
    requires { d < desk_count }
    ensures { result ≡ desk_at d }
{
    DESKS_AT + DESK * d
}

pub fn is_old_sheet(s: &[u8]) -> bool
    ensures { result ≡ right s.now }
{
    if s.len() != SHEET {
        return false;
    }
    if !is_header(s) {
        return false;
    }
    let rows = are_rows(s);
    let rest = is_rest(s);
    rows & rest
}

fn is_header(s: &[u8]) -> bool
    requires { length s.now ≡ sheet_size }
    ensures { result ≡ header_right s.now }
{
    let size = numbers::read_be(s, sheet::LENGTH_AT, sheet::NUMBER) == SHEET as u64;
    let used = numbers::read_be(s, sheet::USED_AT, sheet::NUMBER) <= sheet::ROWS as u64;
    let rows = numbers::read_be(s, sheet::ROW_COUNT_AT, sheet::NUMBER) == sheet::ROWS as u64;
    let rows_start = numbers::read_be(s, sheet::ROWS_OFFSET_AT, sheet::NUMBER)
        == sheet::ROWS_AT as u64;
    let desks = numbers::read_be(s, sheet::DESK_COUNT_AT, sheet::NUMBER) == sheet::DESKS as u64;
    let desks_start = numbers::read_be(s, sheet::DESKS_OFFSET_AT, sheet::NUMBER) == DESKS_AT as u64;
    size & used & rows & rows_start & desks & desks_start
}

// How many rows are used.
pub fn rows_used(s: &[u8]) -> usize
    requires { length s.now ≡ sheet_size }
    ensures { result ≡ used s.now }
{
    numbers::read_be(s, sheet::USED_AT, sheet::NUMBER) as usize
}

// The key of the row, or the copy of a row, at offset a.
// Said in each, since each function reads at an offset that a row or a desk's copy can have: a slice per row would be cut anew for each field.
fn key_at(s: &[u8], a: usize) -> u64
    requires { a + row_size ≤ length s.now }
    ensures { result ≡ key_at s.now a }
{
    numbers::read_be(s, a, sheet::KEY)
}

// The first number of the row, or the copy of a row, at offset a.
fn first_at(s: &[u8], a: usize) -> u32
    requires { a + row_size ≤ length s.now }
    ensures { result ≡ first_number_at s.now a }
{
    numbers::read_be(s, a + FIRST_AT, sheet::FIRST) as u32
}

// The row or copy at offset a, as a value. A new row has the same layout from its key on, so this reads an old row as a new one whose used flag
// stands before its key.
pub fn read_row(s: &[u8], a: usize) -> Row
    requires { (key_start ≤ a) × (a + row_size ≤ length s.now) }
    ensures { result ≡ row_value_at s.now (a - key_start) }
{
    rows::read_row(s, a - sheet::KEY_AT)
}

// Whether the used rows have valid keys, all different, and first numbers of their streams. Each key is read once.
// Said in each, since it is known of a lent slice after its header is read: a type around the slice would be built once and taken apart at each read.
fn are_rows(s: &[u8]) -> bool
    requires { Sized s.now }
    ensures { result ≡ (valid_keys s.now && different_keys s.now && first_numbers s.now) }
{
    let used = rows_used(s);
    // A fixed array, since the library allocates nothing: an old sheet has at most 32 keys.
    let mut keys = [0u64; sheet::ROWS];
    let mut valid = true;
    let mut different = true;
    let mut numbers = true;
    // By index, since row i is read at an offset that comes from i, and its key is compared with the i keys before it.
    for i in 0..used {
        let row = row_at(i);
        let key = key_at(s, row);
        valid &= keys::valid(key);
        numbers &= keys::is_number(key, first_at(s, row));
        different &= right::is_other(&keys[..i], key);
        keys[i] = key;
    }
    valid & different & numbers
}

// Whether the unused rows are zero and each desk is right. The desks follow the unused rows, so these and the closed desks up to the next open one
// are tested as one range of zeros.
// Twice, since `are_desks` of ledger_sheet has other sizes and another test of an open desk: a function for both would take three numbers and a closure.
fn is_rest(s: &[u8]) -> bool
    requires { Sized s.now }
    ensures { result ≡ (unused_zero s.now && all desk_count (desk_right s.now)) }
{
    let mut right = true;
    let mut zeros = row_at(rows_used(s));
    // By index, since each turn reads at three places of one slice: the desk, the zeros before it, and the row that it names.
    for d in 0..sheet::DESKS {
        let desk = desk_at(d);
        if s[desk] != sheet::CLOSED {
            right &= octets::is_long_zero(s, zeros, desk - zeros);
            right &= is_open_desk(s, d);
            zeros = desk + DESK;
        }
    }
    right & octets::is_long_zero(s, zeros, SHEET - zeros)
}

// Whether an open desk is right: its first byte is 1, its two zeros are zero, its row is used, and both copies have that row's key and first number.
// Twice, since in ledger_sheet a row is used by its flag, here by the count, and four offsets and sizes differ: a function for both would take them all.
fn is_open_desk(s: &[u8], d: usize) -> bool
    requires sized { Sized s.now }
    requires not_closed { (d < desk_count) × (desk_byte s.now d ≡ 0 → ⊥) }
    ensures { result ≡ desk_right s.now d }
{
    let a = desk_at(d);
    let row = s[a + sheet::DESK_ROW_AT] as usize;
    if row >= rows_used(s) {
        return false;
    }
    let from = row_at(row);
    let open = s[a] == sheet::OPEN;
    let zeros = octets::is_zero(s, a + sheet::DESK_ZEROS_AT, sheet::DESK_ZEROS);
    let opened = octets::is_same(s, from, s, a + sheet::OPENED_AT, CARRIED);
    let worked = octets::is_same(s, from, s, a + WORKED_AT, CARRIED);
    open & zeros & opened & worked
}
