// RSR records: the gain multiplier, samples.
ghost use Rattle.std.specs.Prelude.{◌≡◌};
ghost use Rattle.sfdu_gain.specs.Gain.{gaining, agreed_gain};
ghost use Rattle.sfdu_samples.specs.Calls.{unpacking, packing};
ghost use Rattle.host.specs.Exported.{exported, exported_on};

use crate::write;
use answers::receivers;

// The gain multiplier of a record, for an edition.
#[unsafe(no_mangle)]
pub extern "C" fn hernganow_gain(record: &[u8], edition: u32, answer: &mut [u8]) -> u32
    ensures { (result, answer.new) ≡ exported (gaining edition «record».now) answer.old }
{
    if answer.len() != answers::ANSWER {
        return write::unwritten();
    }
    let found = sfdu_gain::gain(record, edition);
    write::write_few(answer, receivers::gain(found))
}

// The gain multiplier, for the edition of the mission's agreement on the record's day.
#[unsafe(no_mangle)]
pub extern "C" fn hernganow_agreed_gain(settings: &[u8], record: &[u8], answer: &mut [u8]) -> u32
    ensures { (result, answer.new) ≡ exported (agreed_gain settings.now «record».now) answer.old }
{
    if answer.len() != answers::ANSWER {
        return write::unwritten();
    }
    let found = sfdu_gain::agreed_gain(settings, record);
    write::write_few(answer, receivers::gain(found))
}

// Unpacks the samples of a record, I before Q, to the start of the list.
#[unsafe(no_mangle)]
pub extern "C" fn hernganow_unpack(record: &[u8], list: &mut [i32], answer: &mut [u8]) -> u32
    ensures { (result, answer.new, list.new) ≡ exported_on (unpacking «record».now) answer.old list.old }
{
    if answer.len() != answers::ANSWER {
        return write::unwritten();
    }
    let found = sfdu_samples::unpack(record, list);
    write::write_few(answer, receivers::samples(found))
}

// Packs samples into a data part, at the start of the slice.
#[unsafe(no_mangle)]
pub extern "C" fn hernganow_pack(
    size: u32,
    rate: u32,
    samples: &[i32],
    out: &mut [u8],
    answer: &mut [u8],
) -> u32
    ensures { (result, answer.new, out.new)
        ≡ exported_on (packing size rate samples.now) answer.old out.old }
{
    if answer.len() != answers::ANSWER {
        return write::unwritten();
    }
    let found = sfdu_samples::pack(size, rate, samples, out);
    write::write_few(answer, receivers::samples(found))
}
