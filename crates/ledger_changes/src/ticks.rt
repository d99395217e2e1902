// Ticks and unticks in a row or a desk's copy of one.
ghost use Rattle.std.specs.Prelude.{◌≡◌, true, ◌<◌, length};
ghost use Rattle.ledger_model.specs.Book.{desk, is_open};
ghost use Rattle.ledger_model.specs.Step.{Mark};
ghost use Rattle.ledger_sheet.specs.Sheet.{row_size, desk_count};
ghost use Rattle.ledger_layout.specs.inner.Rules.{IsSheet};
ghost use Rattle.ledger_layout.specs.Layout.{book_of, call, laid_out};
ghost use Rattle.ledger_changes.specs.inner.Bytes.{mark_row, mark_position};
ghost use Rattle.ledger_sheet.specs.Words.{answer_words};

use ledger_sheet as sheet;
use ledger_sheet::right;
use refusals::Refusal;

// How many positions a row has.
pub const POSITIONS: usize = sheet::BYTE_BITS * sheet::TICKS;

// Ticks or unticks number n in the worked copy of desk d. It lends only those bytes to `mark_row`.
pub fn mark_desk(s: &mut [u8], d: usize, n: u32, on: bool) -> Result<(), Refusal>
    requires { IsSheet s.old × (d < desk_count) × (is_open (desk (book_of s.old) d) ≡ true) }
    ensures { (answer_words result, s.new) ≡ laid_out (call (Mark on d n) (book_of s.old)) }
{
    let a = sheet::desk_at(d) + sheet::WORKED_AT;
    let e = a + sheet::ROW;
    mark_row(&mut s[a..e], n, on)
}

// Ticks or unticks number n in a row.
fn mark_row(row: &mut [u8], n: u32, on: bool) -> Result<(), Refusal>
    requires { length row.old ≡ row_size }
    ensures { (answer_words result, row.new) ≡ mark_row on n row.old }
{
    let key = right::key_at(row, 0);
    let first = right::first_at(row, 0);
    mark_position(row, ledger_model::position(key, first, n) as usize, on)
}

// Ticks or unticks position i in a row.
fn mark_position(row: &mut [u8], i: usize, on: bool) -> Result<(), Refusal>
    requires { length row.old ≡ row_size }
    ensures { (answer_words result, row.new) ≡ mark_position on i row.old }
{
    if i >= POSITIONS {
        return Err(Refusal::OutsideRow);
    }
    let ticked = ledger_layout::lookup::is_ticked(row, 0, i);
    let at = sheet::TICKS_AT + i / sheet::BYTE_BITS;
    let bit = ledger_layout::lookup::tick_bit(i % sheet::BYTE_BITS);
    if on {
        if ticked {
            return Err(Refusal::AlreadyTicked);
        }
        row[at] += bit;
        return Ok(());
    }
    if !ticked {
        return Err(Refusal::NotTicked);
    }
    row[at] -= bit;
    Ok(())
}
