// Makes a sheet fresh; opens, saves and clears desks.
ghost use Rattle.std.specs.Prelude.{◌≡◌, true, ◌≤◌, ◌<◌, length};
ghost use Rattle.octets.specs.Octets.{put};
ghost use Rattle.ledger_model.specs.Book.{desk, closed, put_desk, is_open};
ghost use Rattle.ledger_model.specs.Step.{Save};
ghost use Rattle.ledger_sheet.specs.Sheet.{sheet_size, rows_start, row_count, desk_count};
ghost use Rattle.ledger_layout.specs.Bytes.{header_bytes, fresh_sheet};
ghost use Rattle.ledger_layout.specs.inner.Rules.{IsSheet};
ghost use Rattle.ledger_layout.specs.Layout.{layout, book_of, call, laid_out};
ghost use Rattle.ledger_changes.specs.inner.Books.{opened, is_current, stored};
ghost use Rattle.ledger_sheet.specs.Words.{answer_words};

use ledger_layout::lookup;
use ledger_sheet as sheet;
use octets::numbers;
use refusals::Refusal;

// Makes a slice of the right length a fresh sheet.
pub fn make_fresh(s: &mut [u8])
    requires { length s.old ≡ sheet_size }
    ensures { s.new ≡ fresh_sheet }
{
    write_header(s, 0);
    octets::clear(s, sheet::ROWS_AT, sheet::SHEET - sheet::ROWS_AT);
}

// Writes the header of a sheet with this many used rows.
fn write_header(s: &mut [u8], used: u64)
    requires { rows_start ≤ length s.old }
    ensures { s.new ≡ put s.old 0 (header_bytes used) }
{
    numbers::write_be(s, sheet::LENGTH_AT, sheet::NUMBER, sheet::SHEET as u64);
    numbers::write_be(s, sheet::USED_AT, sheet::NUMBER, used);
    numbers::write_be(s, sheet::ROW_COUNT_AT, sheet::NUMBER, sheet::ROWS as u64);
    numbers::write_be(
        s,
        sheet::ROWS_OFFSET_AT,
        sheet::NUMBER,
        sheet::ROWS_AT as u64,
    );
    numbers::write_be(s, sheet::DESK_COUNT_AT, sheet::NUMBER, sheet::DESKS as u64);
    numbers::write_be(
        s,
        sheet::DESKS_OFFSET_AT,
        sheet::NUMBER,
        sheet::DESKS_AT as u64,
    );
}

// Opens a row at desk d: both copies become the row.
// Said in each, since each call leaves another sheet than it was lent: a struct that holds a right sheet would hold a `&mut [u8]`, with the invariant on
// its bytes broken between two writes. And a desk's number is used once in each: a type for it would be built where its one test is made, and opened here.
pub fn open_desk(s: &mut [u8], d: usize, row: usize)
    requires { IsSheet s.old × (d < desk_count) × (row < row_count) }
    ensures { s.new ≡ layout (opened d row (book_of s.old)) }
{
    let a = sheet::desk_at(d);
    let from = sheet::row_at(row);
    s[a] = sheet::OPEN;
    s[a + sheet::DESK_ROW_AT] = row as u8;
    octets::clear(s, a + sheet::DESK_ZEROS_AT, sheet::DESK_ZEROS);
    octets::copy(s, from, a + sheet::OPENED_AT, sheet::ROW);
    octets::copy(s, from, a + sheet::WORKED_AT, sheet::ROW);
}

// Closes desk d: all its bytes become zero.
pub fn clear_desk(s: &mut [u8], d: usize)
    requires { IsSheet s.old × (d < desk_count) }
    ensures { s.new ≡ layout (put_desk d closed (book_of s.old)) }
{
    octets::clear(s, sheet::desk_at(d), sheet::DESK);
}

// Said in each, since it speaks of the sheet's bytes as they are at the call: no type of the desk's number says that.
// Saves desk d. If its row is still as opened, the row becomes the worked copy. In any case the desk is closed.
pub fn save_desk(s: &mut [u8], d: usize) -> Result<(), Refusal>
    requires { IsSheet s.old × (d < desk_count) × (is_open (desk (book_of s.old) d) ≡ true) }
    ensures { (answer_words result, s.new) ≡ laid_out (call (Save d) (book_of s.old)) }
{
    if !is_current(s, d) {
        clear_desk(s, d);
        return Err(Refusal::Stale);
    }
    store(s, d);
    clear_desk(s, d);
    Ok(())
}

// Whether the row that desk d has open equals the opened copy.
pub fn is_current(s: &[u8], d: usize) -> bool
    requires { IsSheet s.now × (d < desk_count) × (is_open (desk (book_of s.now) d) ≡ true) }
    ensures { result ≡ is_current d (book_of s.now) }
{
    let row = sheet::row_at(lookup::open_row(s, d).unwrap());
    octets::is_same(s, row, s, sheet::desk_at(d) + sheet::OPENED_AT, sheet::ROW)
}

// Makes the row that desk d has open equal to the worked copy.
fn store(s: &mut [u8], d: usize)
    requires { IsSheet s.old × (d < desk_count) × (is_open (desk (book_of s.old) d) ≡ true) }
    ensures { s.new ≡ layout (stored d (book_of s.old)) }
{
    let row = sheet::row_at(lookup::open_row(s, d).unwrap());
    octets::copy(s, sheet::desk_at(d) + sheet::WORKED_AT, row, sheet::ROW);
}
