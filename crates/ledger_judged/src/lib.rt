// Find, and the calls that change a sheet. The caller passes whether the sheet is right. Each call leaves a right sheet right (`stays-right`), so
// calls made one after the other need only one check of the sheet.

#![tactic(auto)]

pub mod verdicts;

ghost use Rattle.std.specs.Prelude.{◌≡◌};
ghost use Rattle.ledger_model.specs.Step.{Enrol, Ask, Find, Open, Mark, Save, Drop, Strike};
ghost use Rattle.ledger_sheet.specs.Sheet.{right};
ghost use Rattle.ledger_sheet.specs.Words.{answer_words, row_words};
ghost use Rattle.ledger_layout.specs.Layout.{call, on_sheet};

use ledger_changes::{desks, rows, ticks};
use ledger_layout::lookup;
use refusals::Refusal;

// Said in each, since some calls take the sheet by `&mut` and others by `&`: a type for a tested sheet would be two, one with a `&mut` in it.
pub fn enrol(s: &mut [u8], fine: bool, key: u64, first: u32) -> Result<u32, Refusal>
    requires { fine ≡ right s.old }
    ensures { (row_words result, s.new) ≡ on_sheet (call (Enrol key first)) s.old }
{
    verdicts::enrol_verdict(s, fine, key, first)?;
    Ok(rows::enrol_row(s, key, first))
}

// Said in each, since a type for a tested sheet would be two, as at `enrol`: these take the sheet by `&`, and so do the verdicts of the calls that change it.
pub fn find(s: &[u8], fine: bool, key: u64) -> Result<u32, Refusal>
    requires { fine ≡ right s.now }
    ensures { (row_words result, s.now) ≡ on_sheet (call (Ask (Find key))) s.now }
{
    verdicts::key_verdict(fine, key)?;
    let row = lookup::find_row(s, key).ok_or(Refusal::NoRow)?;
    Ok(row as u32)
}

pub fn open(s: &mut [u8], fine: bool, desk: u32, row: u32) -> Result<(), Refusal>
    requires { fine ≡ right s.old }
    ensures { (answer_words result, s.new) ≡ on_sheet (call (Open desk row)) s.old }
{
    verdicts::open_verdict(s, fine, desk, row)?;
    desks::open_desk(s, desk as usize, row as usize);
    Ok(())
}

pub fn mark(s: &mut [u8], fine: bool, desk: u32, number: u32, on: bool) -> Result<(), Refusal>
    requires { fine ≡ right s.old }
    ensures { (answer_words result, s.new) ≡ on_sheet (call (Mark on desk number)) s.old }
{
    verdicts::desk_verdict(s, fine, desk)?;
    ticks::mark_desk(s, desk as usize, number, on)
}

// Twice, since a drop and a save are two calls, with two contracts: what they share is the verdict, which is one function.
pub fn drop(s: &mut [u8], fine: bool, desk: u32) -> Result<(), Refusal>
    requires { fine ≡ right s.old }
    ensures { (answer_words result, s.new) ≡ on_sheet (call (Drop desk)) s.old }
{
    verdicts::desk_verdict(s, fine, desk)?;
    desks::clear_desk(s, desk as usize);
    Ok(())
}

pub fn save(s: &mut [u8], fine: bool, desk: u32) -> Result<(), Refusal>
    requires { fine ≡ right s.old }
    ensures { (answer_words result, s.new) ≡ on_sheet (call (Save desk)) s.old }
{
    verdicts::desk_verdict(s, fine, desk)?;
    desks::save_desk(s, desk as usize)
}

pub fn strike(s: &mut [u8], fine: bool, row: u32) -> Result<(), Refusal>
    requires { fine ≡ right s.old }
    ensures { (answer_words result, s.new) ≡ on_sheet (call (Strike row)) s.old }
{
    verdicts::strike_verdict(s, fine, row)?;
    rows::strike_row(s, row as usize);
    Ok(())
}
