// The numbers of the answers of the settings sheet's calls.
ghost use Rattle.settings.specs.Words.{asked_words};
ghost use Rattle.answers.specs.Numbers.{plain, flagged};
ghost use Rattle.answers.specs.inner.Numbers.{Few};

use crate::{FEW, places, refused};
use refusals::Refusal;
use settings::Agreement;

// Whether a slice is a settings sheet.
pub fn is_settings(holds: bool) -> [u64; FEW]
    ensures { Few result (flagged holds) }
{
    crate::one(places::IS_SETTINGS, crate::flag(holds))
}

pub fn asked(answer: Result<Agreement, Refusal>) -> [u64; FEW]
    ensures { Few result (plain (asked_words answer)) }
{
    match answer {
        Ok(agreement) => {
            let mut numbers = [0u64; FEW];
            numbers[places::SETTING_EDITION] = u32::from(agreement.edition) as u64;
            numbers[places::SETTING_DAY] = agreement.day as u64;
            numbers[places::SETTING_FRAME] = agreement.frame as u64;
            numbers
        }
        Err(why) => refused(why),
    }
}
