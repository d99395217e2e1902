// Medium band records.
ghost use Rattle.std.specs.Prelude.{◌≡◌};
ghost use Rattle.idr.specs.Read.{read_record, read_words, samples_start, samples_part};
ghost use Rattle.idr_write.specs.Write.{write_record};
ghost use Rattle.answers.specs.Numbers.{placed};
ghost use Rattle.answers.specs.Tapes.{origin, reduction};
ghost use Rattle.host.specs.Exported.{exported, exported_on};

use crate::write;
use answers::{record_parts, tapes};

// A record's source, its time tag and the recorder.
#[unsafe(no_mangle)]
pub extern "C" fn hernganow_tape_read(record: &[u8], answer: &mut [u8]) -> u32
    ensures { (result, answer.new) ≡ exported (origin (read_record «record».now)) answer.old }
{
    if answer.len() != answers::ANSWER {
        return write::unwritten();
    }
    let found = idr::read_record(record);
    write::write(answer, tapes::origin(found))
}

// A medium band record: how it was reduced, and how many samples it has.
#[unsafe(no_mangle)]
pub extern "C" fn hernganow_tape_reduction(record: &[u8], answer: &mut [u8]) -> u32
    ensures { (result, answer.new) ≡ exported (reduction (read_record «record».now)) answer.old }
{
    if answer.len() != answers::ANSWER {
        return write::unwritten();
    }
    let found = idr::read_record(record);
    write::write(answer, tapes::reduction(found))
}

// Copies the header words of a record into the list.
#[unsafe(no_mangle)]
pub extern "C" fn hernganow_tape_words(record: &[u8], list: &mut [u16], answer: &mut [u8]) -> u32
    ensures { (result, answer.new, list.new) ≡ exported_on (read_words «record».now) answer.old list.old }
{
    if answer.len() != answers::ANSWER {
        return write::unwritten();
    }
    let found = idr::read_words(record, list);
    write::write_few(answer, tapes::outcome(found))
}

// The offset and length of the samples in the record.
#[unsafe(no_mangle)]
pub extern "C" fn hernganow_tape_samples(record: &[u8], answer: &mut [u8]) -> u32
    ensures { (result, answer.new)
        ≡ exported (placed (samples_start «record».now) (samples_part «record».now)) answer.old }
{
    if answer.len() != answers::ANSWER {
        return write::unwritten();
    }
    let found = idr::samples(record);
    write::write_few(answer, record_parts::samples(found.len()))
}

// Writes a record from its header words and its samples.
#[unsafe(no_mangle)]
pub extern "C" fn hernganow_tape_write(
    words: &[u16],
    samples: &[u8],
    out: &mut [u8],
    answer: &mut [u8],
) -> u32
    ensures { (result, answer.new, out.new)
        ≡ exported_on (write_record words.now samples.now) answer.old out.old }
{
    if answer.len() != answers::ANSWER {
        return write::unwritten();
    }
    let found = idr_write::write_record(words, samples, out);
    write::write_few(answer, tapes::outcome(found))
}
