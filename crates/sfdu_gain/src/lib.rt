// The sub-channel gain multiplier of an RSR record (document 02, Req 14): `gain` takes the edition from the caller, `agreed_gain` from the mission's
// agreement for the record's day.

#![tactic(auto)]

ghost use Rattle.std.specs.Prelude.{◌≡◌, ◌≤◌, length};
ghost use Rattle.sfdu.specs.declared.Kind.TheVariants.{Rsr as RsrKind};
ghost use Rattle.sfdu.specs.Nesting.{data_value_at};
ghost use Rattle.settings.specs.Editions.{edition_number};
ghost use Rattle.sfdu_gain.specs.Gain.{words_of, gain_word, gain_of, gaining, agreed_gain};

use octets::numbers;
use settings::Edition;
use sfdu::{RecordRefusal, nesting};

// The offset of the multiplier from the record's start.
const GAIN_AT: usize = nesting::SECONDARY_AT + 208;

// The multiplier's four bytes as one number; nothing in the old edition.
pub fn gain(s: &[u8], edition: u32) -> Result<Option<u32>, RecordRefusal>
    ensures { words_of result ≡ gaining edition s.now }
{
    sfdu_headers::rsr_record::read_rsr(s)?;
    let edition = Edition::try_from(edition)?;
    Ok(gain_in(s, edition))
}

// The gain for the edition of the setting in force for the record's mission on its day.
pub fn agreed_gain(sheet: &[u8], s: &[u8]) -> Result<Option<u32>, RecordRefusal>
    ensures { words_of result ≡ agreed_gain sheet.now s.now }
{
    let rsr = sfdu_headers::rsr_record::read_rsr(s)?;
    let agreement = settings::ask(sheet, rsr.mission, rsr.day_count)?;
    Ok(gain_in(s, agreement.edition))
}

// The gain of a whole RSR record.
fn gain_in(s: &[u8], edition: Edition) -> Option<u32>
    requires { data_value_at RsrKind ≤ length s.now }
    ensures { gain_word result ≡ gain_of (edition_number edition) s.now }
{
    match edition {
        Edition::Old => None,
        Edition::New => Some(numbers::read_u32(s, GAIN_AT)),
    }
}
