// Whether a call of the ledger is refused. The tests are in the order of the refusal table, and change nothing. The caller passes whether the sheet
// is right. Each call first tests 20, and then the key, the desk or the row that it names.
ghost use Rattle.std.specs.Prelude.{◌≡◌};
ghost use Rattle.refusals.specs.Judge.{verdict};
ghost use Rattle.ledger_model.specs.Step.{Enrol, Ask, RowReport, Open, Drop, Strike};
ghost use Rattle.ledger_sheet.specs.Sheet.{right};
ghost use Rattle.ledger_layout.specs.inner.Rules.{rules_on};
ghost use Rattle.ledger_judged.specs.inner.Verdicts.{key_rules, desk_number_rules, verdict_number};

use ledger_layout::lookup;
use ledger_sheet as sheet;
use refusals::Refusal;

// The refusals of a call that names a key: 20, 22.
pub(crate) fn key_verdict(fine: bool, key: u64) -> Result<(), Refusal>
    ensures { verdict_number result ≡ verdict (key_rules fine key) }
{
    if !fine {
        return Err(Refusal::NotSheet);
    }
    if !keys::valid(key) {
        return Err(Refusal::BadKey);
    }
    Ok(())
}

pub fn enrol_verdict(s: &[u8], fine: bool, key: u64, first: u32) -> Result<(), Refusal>
    requires { fine ≡ right s.now }
    ensures { verdict_number result ≡ verdict (rules_on (Enrol key first) s.now) }
{
    key_verdict(fine, key)?;
    if !keys::is_number(key, first) {
        return Err(Refusal::FirstNumber);
    }
    if lookup::has_key(s, key) {
        return Err(Refusal::AlreadyEnrolled);
    }
    if lookup::free_row(s).is_none() {
        return Err(Refusal::LedgerFull);
    }
    Ok(())
}

// The refusals of a call that names a desk: 20, 21. The question `desk` has only these.
pub fn desk_number_verdict(fine: bool, desk: u32) -> Result<(), Refusal>
    ensures { verdict_number result ≡ verdict (desk_number_rules fine desk) }
{
    if !fine {
        return Err(Refusal::NotSheet);
    }
    if desk as usize >= sheet::DESKS {
        return Err(Refusal::NoDesk);
    }
    Ok(())
}

pub fn open_verdict(s: &[u8], fine: bool, desk: u32, row: u32) -> Result<(), Refusal>
    requires { fine ≡ right s.now }
    ensures { verdict_number result ≡ verdict (rules_on (Open desk row) s.now) }
{
    desk_number_verdict(fine, desk)?;
    if !lookup::is_row(s, row as usize) {
        return Err(Refusal::NoRow);
    }
    if !lookup::is_closed(s, desk as usize) {
        return Err(Refusal::DeskOpen);
    }
    Ok(())
}

// The refusals of a call by a desk that must have a row open. A drop has only these; a tick, an untick and a save begin with them.
pub fn desk_verdict(s: &[u8], fine: bool, desk: u32) -> Result<(), Refusal>
    requires { fine ≡ right s.now }
    ensures { verdict_number result ≡ verdict (rules_on (Drop desk) s.now) }
{
    desk_number_verdict(fine, desk)?;
    if lookup::is_closed(s, desk as usize) {
        return Err(Refusal::DeskClosed);
    }
    Ok(())
}

// The refusals of a call that names a row: 20, 25. Row report has only these.
pub fn row_verdict(s: &[u8], fine: bool, row: u32) -> Result<(), Refusal>
    requires { fine ≡ right s.now }
    ensures { verdict_number result ≡ verdict (rules_on (Ask (RowReport row)) s.now) }
{
    if !fine {
        return Err(Refusal::NotSheet);
    }
    if !lookup::is_row(s, row as usize) {
        return Err(Refusal::NoRow);
    }
    Ok(())
}

pub fn strike_verdict(s: &[u8], fine: bool, row: u32) -> Result<(), Refusal>
    requires { fine ≡ right s.now }
    ensures { verdict_number result ≡ verdict (rules_on (Strike row) s.now) }
{
    row_verdict(s, fine, row)?;
    if !lookup::is_idle(s, row as usize) {
        return Err(Refusal::RowOpen);
    }
    Ok(())
}
