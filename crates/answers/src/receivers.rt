// The numbers of the answers of the calls on RSR records: the gain multiplier, samples.
ghost use Rattle.sfdu_gain.specs.Gain as Gain;
ghost use Rattle.sfdu_samples.specs.Calls as Samples;
ghost use Rattle.answers.specs.Numbers.{plain};
ghost use Rattle.answers.specs.inner.Numbers.{Few};

use crate::{FEW, NONE, places, refused_record};
use sfdu::RecordRefusal;

// The old edition has no multiplier.
pub fn gain(answer: Result<Option<u32>, RecordRefusal>) -> [u64; FEW]
    ensures { Few result (Gain.words_of answer) }
{
    match answer {
        Ok(Some(multiplier)) => crate::one(places::GAIN, multiplier as u64),
        Ok(None) => crate::one(places::GAIN, NONE),
        Err(why) => refused_record(why),
    }
}

pub fn samples(answer: Result<usize, RecordRefusal>) -> [u64; FEW]
    ensures { Few result (plain (Samples.words_of answer)) }
{
    match answer {
        Ok(count) => crate::count(count as u64),
        Err(why) => refused_record(why),
    }
}
