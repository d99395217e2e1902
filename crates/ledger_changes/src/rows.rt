// Rows as values; enrols and strikes rows.
ghost use Rattle.std.specs.Prelude.{◌≡◌, false, ◌+◌, ◌≤◌, length};
ghost use Rattle.octets.specs.Octets.{part, put};
ghost use Rattle.ledger_model.specs.Positions.{no_ticks};
ghost use Rattle.ledger_model.specs.Book.{free, row, place, put_place, is_free, all_used, lowest_free, any_has_open};
ghost use Rattle.ledger_sheet.specs.Sheet.{row_size, ticks_size};
ghost use Rattle.ledger_layout.specs.inner.Rules.{IsSheet};
ghost use Rattle.ledger_layout.specs.Layout.{layout, book_of};
ghost use Rattle.ledger_layout.specs.Rows.{row_bytes};
ghost use Rattle.ledger_changes.specs.inner.Rows.{row_value_at, blank_row};

use ledger_sheet as sheet;
use ledger_sheet::{Row, right};
use octets::numbers;

// A row with no ticks.
pub fn blank_row(key: u64, first: u32) -> Row
    ensures { result ≡ blank_row key first }
{
    Row {
        key,
        first,
        ticks: [0; sheet::TICKS],
    }
}

// The row or copy at offset a, as a value.
pub fn read_row(s: &[u8], a: usize) -> Row
    requires { a + row_size ≤ length s.now }
    ensures { result ≡ row_value_at s.now a }
{
    let key = right::key_at(s, a);
    let first = right::first_at(s, a);
    let ticks = read_ticks(s, a + sheet::TICKS_AT);
    Row { key, first, ticks }
}

fn read_ticks(s: &[u8], a: usize) -> [u8; sheet::TICKS]
    requires { a + ticks_size ≤ length s.now }
    ensures { result ≡ part s.now a ticks_size }
{
    let mut ticks = [0u8; sheet::TICKS];
    ticks.copy_from_slice(&s[a..a + sheet::TICKS]);
    ticks
}

// Writes a row at offset a.
pub fn write_row(s: &mut [u8], a: usize, row: Row)
    requires { a + row_size ≤ length s.old }
    ensures { s.new ≡ put s.old a (row_bytes row.key row.first row.ticks) }
{
    numbers::write_be(s, a, sheet::USED_WORD, sheet::USED);
    numbers::write_be(s, a + sheet::KEY_AT, sheet::KEY, row.key);
    numbers::write_be(s, a + sheet::FIRST_AT, sheet::FIRST, row.first as u64);
    octets::copy_in(&row.ticks, s, a + sheet::TICKS_AT);
}

// Enrols a stream in the lowest free row, and gives the row.
pub fn enrol_row(s: &mut [u8], key: u64, first: u32) -> u32
    requires { IsSheet s.old × (all_used (book_of s.old).places ≡ false) }
    ensures lowest { result ≡ lowest_free (book_of s.old).places }
    ensures enrolled { s.new ≡ layout (put_place result (row key first no_ticks) (book_of s.old)) }
{
    let row = ledger_layout::lookup::free_row(s).unwrap();
    let used = right::rows_used(s) as u64;
    write_row(s, sheet::row_at(row), blank_row(key, first));
    numbers::write_be(s, sheet::USED_AT, sheet::NUMBER, used + 1);
    row as u32
}

// Strikes a row: all its bytes become zero, and the header counts one used row less.
pub fn strike_row(s: &mut [u8], row: usize)
    requires { IsSheet s.old × (is_free (place (book_of s.old) row) ≡ false) × (any_has_open row (book_of s.old).desks ≡ false) }
    ensures { s.new ≡ layout (put_place row free (book_of s.old)) }
{
    let used = right::rows_used(s) as u64;
    octets::clear(s, sheet::row_at(row), sheet::ROW);
    numbers::write_be(s, sheet::USED_AT, sheet::NUMBER, used - 1);
}
