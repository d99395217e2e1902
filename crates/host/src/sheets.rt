// The ledger sheet.
ghost use Rattle.std.specs.Prelude.{◌≡◌};
ghost use Rattle.ledger_sheet.specs.Sheet.{right};
ghost use Rattle.ledger_model.specs.Step.{Enrol, Ask, Find, RowReport, FirstGap, RowStream, DeskState, Unsaved, Open, Tick, Untick, Save, Drop, Strike};
ghost use Rattle.ledger_layout.specs.Layout.{call, on_sheet, fresh_on};
ghost use Rattle.ledger_convert.specs.Convert.{convert_on};
ghost use Rattle.ledger_missing.specs.Missing.{missing_on};
ghost use Rattle.answers.specs.Numbers.{plain, with_none, flagged};
ghost use Rattle.host.specs.Exported.{exported, exported_on};
ghost use Rattle.host.specs.Received.{received};

use crate::write;
use ledger_answers::{ledgers, streams};

// Makes the slice a fresh sheet.
#[unsafe(no_mangle)]
pub extern "C" fn hernganow_fresh(sheet: &mut [u8], answer: &mut [u8]) -> u32
    ensures { (result, answer.new, sheet.new) ≡ exported_on fresh_on answer.old sheet.old }
{
    if answer.len() != answers::ANSWER {
        return write::unwritten();
    }
    let found = ledger::fresh(sheet);
    write::write_few(answer, answers::done(found))
}

// Enrols a stream.
#[unsafe(no_mangle)]
pub extern "C" fn hernganow_enrol(sheet: &mut [u8], key: u64, first: u32, answer: &mut [u8]) -> u32
    ensures { (result, answer.new, sheet.new) ≡ exported_on (on_sheet (call (Enrol key first))) answer.old sheet.old }
{
    if answer.len() != answers::ANSWER {
        return write::unwritten();
    }
    let found = ledger::enrol(sheet, key, first);
    write::write_few(answer, ledgers::row(found))
}

// Finds a stream.
#[unsafe(no_mangle)]
pub extern "C" fn hernganow_find(sheet: &[u8], key: u64, answer: &mut [u8]) -> u32
    ensures { (result, answer.new) ≡ exported (plain (on_sheet (call (Ask (Find key))) sheet.now).0) answer.old }
{
    if answer.len() != answers::ANSWER {
        return write::unwritten();
    }
    let found = ledger::find(sheet, key);
    write::write_few(answer, ledgers::row(found))
}

// Opens a row at a desk.
#[unsafe(no_mangle)]
pub extern "C" fn hernganow_open(sheet: &mut [u8], desk: u32, row: u32, answer: &mut [u8]) -> u32
    ensures { (result, answer.new, sheet.new) ≡ exported_on (on_sheet (call (Open desk row))) answer.old sheet.old }
{
    if answer.len() != answers::ANSWER {
        return write::unwritten();
    }
    let found = ledger::open(sheet, desk, row);
    write::write_few(answer, answers::done(found))
}

// Ticks a number.
#[unsafe(no_mangle)]
pub extern "C" fn hernganow_tick(sheet: &mut [u8], desk: u32, number: u32, answer: &mut [u8]) -> u32
    ensures { (result, answer.new, sheet.new) ≡ exported_on (on_sheet (call (Tick desk number))) answer.old sheet.old }
{
    if answer.len() != answers::ANSWER {
        return write::unwritten();
    }
    let found = ledger::tick(sheet, desk, number);
    write::write_few(answer, answers::done(found))
}

// Unticks a number.
#[unsafe(no_mangle)]
pub extern "C" fn hernganow_untick(
    sheet: &mut [u8],
    desk: u32,
    number: u32,
    answer: &mut [u8],
) -> u32
    ensures { (result, answer.new, sheet.new)
        ≡ exported_on (on_sheet (call (Untick desk number))) answer.old sheet.old }
{
    if answer.len() != answers::ANSWER {
        return write::unwritten();
    }
    let found = ledger::untick(sheet, desk, number);
    write::write_few(answer, answers::done(found))
}

// Saves a desk's worked copy.
#[unsafe(no_mangle)]
pub extern "C" fn hernganow_save(sheet: &mut [u8], desk: u32, answer: &mut [u8]) -> u32
    ensures { (result, answer.new, sheet.new) ≡ exported_on (on_sheet (call (Save desk))) answer.old sheet.old }
{
    if answer.len() != answers::ANSWER {
        return write::unwritten();
    }
    let found = ledger::save(sheet, desk);
    write::write_few(answer, answers::done(found))
}

// Drops what a desk has open.
#[unsafe(no_mangle)]
pub extern "C" fn hernganow_drop(sheet: &mut [u8], desk: u32, answer: &mut [u8]) -> u32
    ensures { (result, answer.new, sheet.new) ≡ exported_on (on_sheet (call (Drop desk))) answer.old sheet.old }
{
    if answer.len() != answers::ANSWER {
        return write::unwritten();
    }
    let found = ledger::drop(sheet, desk);
    write::write_few(answer, answers::done(found))
}

// Strikes a row.
#[unsafe(no_mangle)]
pub extern "C" fn hernganow_strike(sheet: &mut [u8], row: u32, answer: &mut [u8]) -> u32
    ensures { (result, answer.new, sheet.new) ≡ exported_on (on_sheet (call (Strike row))) answer.old sheet.old }
{
    if answer.len() != answers::ANSWER {
        return write::unwritten();
    }
    let found = ledger::strike(sheet, row);
    write::write_few(answer, answers::done(found))
}

// Reports on a row: how many are ticked, how many are missing, and the lowest missing number or none.
#[unsafe(no_mangle)]
pub extern "C" fn hernganow_row_report(sheet: &[u8], row: u32, answer: &mut [u8]) -> u32
    ensures { (result, answer.new) ≡ exported (with_none 4 (on_sheet (call (Ask (RowReport row))) sheet.now).0) answer.old }
{
    if answer.len() != answers::ANSWER {
        return write::unwritten();
    }
    let found = ledger::row_report(sheet, row);
    write::write_few(answer, ledgers::report(found))
}

// Finds the first gap: the number and its row, or none.
#[unsafe(no_mangle)]
pub extern "C" fn hernganow_first_gap(sheet: &[u8], answer: &mut [u8]) -> u32
    ensures { (result, answer.new) ≡ exported (with_none 3 (on_sheet (call (Ask FirstGap)) sheet.now).0) answer.old }
{
    if answer.len() != answers::ANSWER {
        return write::unwritten();
    }
    let found = ledger::first_gap(sheet);
    write::write_few(answer, ledgers::gap(found))
}

// Makes a new sheet from an old one.
#[unsafe(no_mangle)]
pub extern "C" fn hernganow_convert(old: &[u8], sheet: &mut [u8], answer: &mut [u8]) -> u32
    ensures { (result, answer.new, sheet.new) ≡ exported_on (convert_on old.now) answer.old sheet.old }
{
    if answer.len() != answers::ANSWER {
        return write::unwritten();
    }
    let found = ledger_convert::convert(old, sheet);
    write::write_few(answer, answers::done(found))
}

// Whether the slice is a right sheet: 1 or 0.
#[unsafe(no_mangle)]
pub extern "C" fn hernganow_is_sheet(sheet: &[u8], answer: &mut [u8]) -> u32
    ensures { (result, answer.new) ≡ exported (flagged (right sheet.now)) answer.old }
{
    if answer.len() != answers::ANSWER {
        return write::unwritten();
    }
    let found = ledger::is_sheet(sheet);
    write::write_few(answer, ledgers::is_sheet(found))
}

// The stream of a row: its key and first number.
#[unsafe(no_mangle)]
pub extern "C" fn hernganow_row(sheet: &[u8], row: u32, answer: &mut [u8]) -> u32
    ensures { (result, answer.new) ≡ exported (plain (on_sheet (call (Ask (RowStream row))) sheet.now).0) answer.old }
{
    if answer.len() != answers::ANSWER {
        return write::unwritten();
    }
    let found = ledger::row(sheet, row);
    write::write_few(answer, ledgers::stream(found))
}

// The row that a desk has open, and whether a save would be stale now.
#[unsafe(no_mangle)]
pub extern "C" fn hernganow_desk(sheet: &[u8], desk: u32, answer: &mut [u8]) -> u32
    ensures { (result, answer.new) ≡ exported (with_none 3 (on_sheet (call (Ask (DeskState desk))) sheet.now).0) answer.old }
{
    if answer.len() != answers::ANSWER {
        return write::unwritten();
    }
    let found = ledger::desk(sheet, desk);
    write::write_few(answer, ledgers::desk(found))
}

// How many ticks and unticks a desk has not saved.
#[unsafe(no_mangle)]
pub extern "C" fn hernganow_unsaved(sheet: &[u8], desk: u32, answer: &mut [u8]) -> u32
    ensures { (result, answer.new) ≡ exported (plain (on_sheet (call (Ask (Unsaved desk))) sheet.now).0) answer.old }
{
    if answer.len() != answers::ANSWER {
        return write::unwritten();
    }
    let found = ledger::unsaved(sheet, desk);
    write::write_few(answer, ledgers::unsaved(found))
}

// Writes the missing numbers of a row to the start of the list.
#[unsafe(no_mangle)]
pub extern "C" fn hernganow_missing_numbers(
    sheet: &[u8],
    row: u32,
    list: &mut [u32],
    answer: &mut [u8],
) -> u32
    ensures { (result, answer.new, list.new)
        ≡ exported_on (missing_on row sheet.now) answer.old list.old }
{
    if answer.len() != answers::ANSWER {
        return write::unwritten();
    }
    let found = ledger_missing::missing_numbers(sheet, row, list);
    write::write_few(answer, ledgers::number(found))
}

// Receives a stream at a desk. Each whole record makes a visit, and its outcome is written into the list.
#[unsafe(no_mangle)]
pub extern "C" fn hernganow_receive(
    sheet: &mut [u8],
    desk: u32,
    stream: &[u8],
    list: &mut [u32],
    answer: &mut [u8],
) -> u32
    ensures { (result, answer.new, (list.new, sheet.new))
        ≡ exported_on (received desk stream.now) answer.old (list.old, sheet.old) }
{
    if answer.len() != answers::ANSWER {
        return write::unwritten();
    }
    let found = ledger_receive::receive(sheet, desk, stream, list);
    write::write(answer, streams::received(found))
}
