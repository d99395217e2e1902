// Reads a sheet: the row with a key, a free row, a desk's row, a tick. Changes nothing.
ghost use Rattle.std.specs.Prelude.{◌≡◌, not, ◌+◌, ◌≤◌, ◌<◌, ◌^◌, length};
ghost use Rattle.ledger_model.specs.Positions.{row_length};
ghost use Rattle.ledger_model.specs.Book.{place, desk, is_free, is_open, has_key, place_with, lowest_free, any_has_open};
ghost use Rattle.ledger_sheet.specs.Sheet.{row_size, row_count, byte_bits, desk_count};
ghost use Rattle.ledger_layout.specs.inner.Rules.{IsSheet};
ghost use Rattle.ledger_layout.specs.Layout.{book_of};
ghost use Rattle.ledger_layout.specs.Ticks.{ticked_at};
ghost use Rattle.ledger_layout.specs.inner.Scans.{is_row_of, found, opened_row};

use ledger_sheet as sheet;
use ledger_sheet::right;

// The used row with the key.
// Said in each, since a struct that holds a right sheet would be made anew by each caller: `ledger_judged` and `ledger_changes` hold a slice, some `&mut`.
pub fn find_row(s: &[u8], key: u64) -> Option<usize>
    requires { IsSheet s.now }
    ensures { result ≡ found (place_with key (book_of s.now).places) }
{
    (0..sheet::ROWS).find(|i| is_row_of(s, key, *i))
}

// Whether row i is used and has the key.
fn is_row_of(s: &[u8], key: u64, i: usize) -> bool
    requires { IsSheet s.now × (i < row_count) }
    ensures { result ≡ is_row_of key (place (book_of s.now) i) }
{
    if !right::is_used(s, i) {
        return false;
    }
    right::key_at(s, sheet::row_at(i)) == key
}

// Whether a used row has the key.
pub fn has_key(s: &[u8], key: u64) -> bool
    requires { IsSheet s.now }
    ensures { result ≡ has_key key (book_of s.now).places }
{
    find_row(s, key).is_some()
}

// The lowest free row.
pub fn free_row(s: &[u8]) -> Option<usize>
    requires { IsSheet s.now }
    ensures { result ≡ found (lowest_free (book_of s.now).places) }
{
    (0..sheet::ROWS).find(|i| !right::is_used(s, *i))
}

// Whether there is a row with this number. A free place is no row.
pub fn is_row(s: &[u8], row: usize) -> bool
    requires { IsSheet s.now }
    ensures { result ≡ not (is_free (place (book_of s.now) row)) }
{
    right::is_row(s, row)
}

// Whether desk d is closed.
pub fn is_closed(s: &[u8], d: usize) -> bool
    requires { IsSheet s.now × (d < desk_count) }
    ensures { result ≡ not (is_open (desk (book_of s.now) d)) }
{
    s[sheet::desk_at(d)] == sheet::CLOSED
}

// Whether no desk has the row open.
pub fn is_idle(s: &[u8], row: usize) -> bool
    requires { IsSheet s.now }
    ensures { result ≡ not (any_has_open row (book_of s.now).desks) }
{
    (0..sheet::DESKS).all(|d| open_row(s, d) != Some(row))
}

// The row that desk d has open.
pub fn open_row(s: &[u8], d: usize) -> Option<usize>
    requires { IsSheet s.now × (d < desk_count) }
    ensures { result ≡ opened_row (desk (book_of s.now) d) }
{
    if is_closed(s, d) {
        return None;
    }
    Some(s[sheet::desk_at(d) + sheet::DESK_ROW_AT] as usize)
}

// Whether position i of the row or copy at offset a is ticked.
pub fn is_ticked(s: &[u8], a: usize, i: usize) -> bool
    requires { (a + row_size ≤ length s.now) × (i < row_length) }
    ensures { result ≡ ticked_at s.now a i }
{
    s[a + sheet::TICKS_AT + i / sheet::BYTE_BITS] / tick_bit(i % sheet::BYTE_BITS) % 2 == 1
}

// The bit of position k in a byte of ticks.
pub fn tick_bit(k: usize) -> u8
    requires { k < byte_bits }
    ensures { result ≡ 2 ^ k }
{
    1u8 << k
}
