// Converts old sheets (document 01's layout) to new ones (document 02, request 10).

#![tactic(auto)]

pub mod old;

ghost use Rattle.std.specs.Prelude.{◌≡◌, true, ◌<◌, length};
ghost use Rattle.octets.specs.Octets.{put};
ghost use Rattle.ledger_sheet.specs.Sheet.{sheet_size, row_count, ticks_size, desk_count, desk_at};
ghost use Rattle.ledger_sheet.specs.Words.{answer_words};
ghost use Rattle.ledger_layout.specs.Rows.{row_bytes};
ghost use Rattle.ledger_layout.specs.Bytes.{open_desk};
ghost use Rattle.ledger_layout.specs.Layout.{layout};
ghost use Rattle.ledger_sheet.specs.Sheet as Sheet;
ghost use Rattle.ledger_convert.specs.Old as Old;
ghost use Rattle.ledger_convert.specs.Convert.{old_book_of, convert_on};
ghost use Rattle.ledger_convert.specs.inner.Laid.{Laid};

use ledger_changes::{desks, rows};
use ledger_sheet as sheet;
use ledger_sheet::Row;
use octets::numbers;
use refusals::Refusal;

// Makes a new sheet from an old one, with the same places and open desks. Refuses if `old` is not a right old sheet or `new` does not have a sheet's
// length; then it writes nothing.
pub fn convert(old: &[u8], new: &mut [u8]) -> Result<(), Refusal>
    ensures { (answer_words result, new.new) ≡ convert_on old.now new.old }
{
    if new.len() != sheet::SHEET {
        return Err(Refusal::NotSheet);
    }
    if !old::is_old_sheet(old) {
        return Err(Refusal::NotSheet);
    }
    lay_out(old, new);
    Ok(())
}

// Said in each, since `convert` finds it once of a lent slice: a type around the slice would be built there and taken apart at each read.
fn lay_out(old: &[u8], new: &mut [u8])
    requires { (length new.old ≡ sheet_size) × (Old.right old.now ≡ true) }
    ensures { new.new ≡ layout (old_book_of old.now) }
{
    let used = old::rows_used(old);
    desks::make_fresh(new);
    numbers::write_be(new, sheet::USED_AT, sheet::NUMBER, used as u64);
    write_rows(old, new, used);
    write_desks(old, new);
}

// Writes the used rows.
fn write_rows(old: &[u8], new: &mut [u8], used: usize)
    requires right_sheet { (Old.right old.now ≡ true) × (used ≡ Sheet.used old.now) }
    requires laid { Laid old.now new.old 0 0 }
    ensures { Laid old.now new.new row_count 0 }
{
    // By index, since row i stands at one offset in the old sheet and at another in the new one.
    for i in 0..used {
        let row = old::read_row(old, old::row_at(i));
        rows::write_row(new, sheet::row_at(i), row);
    }
}

// Writes the open desks.
fn write_desks(old: &[u8], new: &mut [u8])
    requires right_sheet { Old.right old.now ≡ true }
    requires laid { Laid old.now new.old row_count 0 }
    ensures { Laid old.now new.new row_count desk_count }
{
    // By index, since desk d stands at one offset in the old sheet and at another in the new one.
    for d in 0..sheet::DESKS {
        let from = old::desk_at(d);
        if old[from] != sheet::CLOSED {
            let opened = old::read_row(old, from + sheet::OPENED_AT);
            let worked = old::read_row(old, from + old::WORKED_AT);
            write_desk(new, d, old[from + sheet::DESK_ROW_AT], opened, worked);
        }
    }
}

// Writes desk d as an open one.
// Said in each, since a desk is told by its number, as in ledger_sheet: a type for the number would be made anew at each turn of a loop.
fn write_desk(new: &mut [u8], d: usize, row: u8, opened: Row, worked: Row)
    requires sized { (length new.old ≡ sheet_size) × (d < desk_count) }
    requires ticks { (length opened.ticks ≡ ticks_size) × (length worked.ticks ≡ ticks_size) }
    ensures { new.new ≡ put new.old (desk_at d) (open_desk row (row_bytes opened.key opened.first opened.ticks)
        (row_bytes worked.key worked.first worked.ticks)) }
{
    let a = sheet::desk_at(d);
    new[a] = sheet::OPEN;
    new[a + sheet::DESK_ROW_AT] = row;
    octets::clear(new, a + sheet::DESK_ZEROS_AT, sheet::DESK_ZEROS);
    rows::write_row(new, a + sheet::OPENED_AT, opened);
    rows::write_row(new, a + sheet::WORKED_AT, worked);
}
