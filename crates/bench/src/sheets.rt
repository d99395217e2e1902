// Questions on a sheet, and the parts of a key.
ghost use Rattle.std.specs.Prelude.{◌≡◌};
ghost use Rattle.keys.specs.Key.{parts_call};
ghost use Rattle.ledger_model.specs.Step.{Ask, RowStream, DeskState, Unsaved};
ghost use Rattle.ledger_layout.specs.Layout.{call, on_sheet};
ghost use Rattle.ledger_missing.specs.Missing.{missing_on};
ghost use Rattle.answers.specs.Numbers.{numbers_of, plain, with_none};
ghost use Rattle.bench.specs.inner.Digest.{xor_of, few_onto};

use crate::few;
use ledger_answers::ledgers;

#[unsafe(no_mangle)]
pub extern "C" fn bench_parts(key: u64) -> u64
    ensures { result ≡ xor_of (numbers_of (plain (parts_call key))) }
{
    crate::xor_of(answers::parts(keys::parts(key)))
}

#[unsafe(no_mangle)]
pub extern "C" fn bench_row(s: &[u8], row: u32) -> u64
    ensures { result ≡ few_onto (numbers_of (plain (on_sheet (call (Ask (RowStream row))) s.now).0)) }
{
    few::onto(ledgers::stream(ledger::row(s, row)))
}

#[unsafe(no_mangle)]
pub extern "C" fn bench_desk(s: &[u8], desk: u32) -> u64
    ensures { result ≡ few_onto (numbers_of (with_none 3 (on_sheet (call (Ask (DeskState desk))) s.now).0)) }
{
    few::onto(ledgers::desk(ledger::desk(s, desk)))
}

#[unsafe(no_mangle)]
pub extern "C" fn bench_unsaved(s: &[u8], desk: u32) -> u64
    ensures { result ≡ few_onto (numbers_of (plain (on_sheet (call (Ask (Unsaved desk))) s.now).0)) }
{
    few::onto(ledgers::unsaved(ledger::unsaved(s, desk)))
}

#[unsafe(no_mangle)]
pub extern "C" fn bench_missing(s: &[u8], row: u32, list: &mut [u32]) -> u64
    ensures value { result ≡ few_onto (numbers_of (plain (missing_on row s.now list.old).0)) }
    ensures list_after { list.new ≡ (missing_on row s.now list.old).1 }
{
    few::onto(ledgers::number(ledger_missing::missing_numbers(s, row, list)))
}
