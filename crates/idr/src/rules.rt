// The refusals of header words, in order. The reader and the writer use them.
ghost use Rattle.std.specs.Prelude.{◌≡◌};
ghost use Rattle.refusals.specs.Judge.{verdict};
ghost use Rattle.idr.specs.Rules.{outcome_number, are_digits, is_clock, is_time, are_rates, is_block, word_rules};
ghost use Rattle.idr.specs.inner.Lent.{lent_rules};

use crate as idr;
use crate::{Time, fields, words};
use refusals::Refusal;

// The index of the length word (word 3), and the value it must have.
const LENGTH_WORD: usize = 2;

const RECORD_WORDS: u16 = 2528;

const TIME_DIGITS: usize = 9;

const LAST_DAY: u16 = 366;

const LAST_HOUR: u16 = 23;

const LAST_MINUTE: u16 = 59;

const LAST_SECOND: u16 = 59;

const LAST_MICRO: u32 = 999999;

// The lowest negative number of 24 bits, as stored.
const LEAST_BLOCK: u32 = 8388608;

// Tests header words that a caller lends: how many they are, and then the rules.
pub fn judge(w: &[u16]) -> Result<(), Refusal>
    ensures { outcome_number result ≡ verdict (lent_rules w.now) }
{
    let Ok(words) = <&[u16; idr::HEADER]>::try_from(w) else {
        return Err(Refusal::TapeLengths);
    };
    judge_words(words)
}

// Tests the rules of header words.
pub(crate) fn judge_words(w: &[u16; idr::HEADER]) -> Result<(), Refusal>
    ensures { outcome_number result ≡ verdict (word_rules w.now) }
{
    if w[LENGTH_WORD] != RECORD_WORDS {
        return Err(Refusal::TapeLengthWord);
    }
    if !fields::is_tagged(w) {
        return Ok(());
    }
    if !is_time(w) {
        return Err(Refusal::TapeTime);
    }
    if !are_rates(w) {
        return Err(Refusal::TapeRate);
    }
    if !is_block(w) {
        return Err(Refusal::TapeBlock);
    }
    Ok(())
}

fn is_time(w: &[u16; idr::HEADER]) -> bool
    ensures { result ≡ is_time w.now }
{
    are_digits(w) & is_clock(fields::time_of(w))
}

fn are_digits(w: &[u16; idr::HEADER]) -> bool
    ensures { result ≡ are_digits w.now }
{
    (0..TIME_DIGITS).all(|k| fields::digit_at(w, k) <= 9)
}

fn is_clock(t: Time) -> bool
    ensures { result ≡ is_clock t.day t.hour t.minute t.second t.micros }
{
    (1 <= t.day)
        & (t.day <= LAST_DAY)
        & (t.hour <= LAST_HOUR)
        & (t.minute <= LAST_MINUTE)
        & (t.second <= LAST_SECOND)
        & (t.micros <= LAST_MICRO)
}

// Whether both rate codes are listed.
fn are_rates(w: &[u16; idr::HEADER]) -> bool
    ensures { result ≡ are_rates w.now }
{
    fields::playback_rate(words::field(w, 10, 12, 16)).is_some()
        & fields::sampling_rate(words::field(w, 11, 12, 16)).is_some()
}

fn is_block(w: &[u16; idr::HEADER]) -> bool
    ensures { result ≡ is_block w.now }
{
    LEAST_BLOCK <= fields::block_stored(w)
}
