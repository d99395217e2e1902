// Records.
ghost use Rattle.std.specs.Prelude.{◌≡◌};
ghost use Rattle.sfdu.specs.Read.{read_one, secondary_start, secondary_part, data_start, data_part};
ghost use Rattle.sfdu_write.specs.Write.{write_one};
ghost use Rattle.sfdu_headers.specs.Headers.{read_headers};
ghost use Rattle.answers.specs.Numbers.{plain, placed};
ghost use Rattle.host.specs.Exported.{exported, exported_on};

use crate::write;
use answers::{record_parts, streams};
use sfdu::Primary;

// The kind, the length and the primary values of the first record of the slice.
#[unsafe(no_mangle)]
pub extern "C" fn hernganow_read_one(record: &[u8], answer: &mut [u8]) -> u32
    ensures { (result, answer.new) ≡ exported (plain (read_one «record».now)) answer.old }
{
    if answer.len() != answers::ANSWER {
        return write::unwritten();
    }
    let found = sfdu::read_one(record);
    write::write(answer, streams::read(found))
}

// The header fields of a record of the wanted kind, and its stream key.
#[unsafe(no_mangle)]
pub extern "C" fn hernganow_read_headers(record: &[u8], wanted: u32, answer: &mut [u8]) -> u32
    ensures { (result, answer.new) ≡ exported (read_headers wanted «record».now) answer.old }
{
    if answer.len() != answers::ANSWER {
        return write::unwritten();
    }
    let found = sfdu_headers::read_headers(record, wanted);
    write::write(answer, answers::records::headers(found))
}

// The offset and length of the secondary part of the slice's first record.
#[unsafe(no_mangle)]
pub extern "C" fn hernganow_secondary_part(record: &[u8], answer: &mut [u8]) -> u32
    ensures { (result, answer.new)
        ≡ exported (placed (secondary_start «record».now) (secondary_part «record».now)) answer.old }
{
    if answer.len() != answers::ANSWER {
        return write::unwritten();
    }
    let found = sfdu::read_one(record);
    write::write_few(answer, record_parts::secondary(found))
}

// The offset and length of its data part.
#[unsafe(no_mangle)]
pub extern "C" fn hernganow_data_part(record: &[u8], answer: &mut [u8]) -> u32
    ensures { (result, answer.new)
        ≡ exported (placed (data_start «record».now) (data_part «record».now)) answer.old }
{
    if answer.len() != answers::ANSWER {
        return write::unwritten();
    }
    let found = sfdu::read_one(record);
    write::write_few(answer, record_parts::data(found))
}

// Writes a record at the start of the slice.
#[unsafe(no_mangle)]
pub extern "C" fn hernganow_write_one(
    kind: u32,
    major: u8,
    minor: u8,
    mission: u8,
    format: u8,
    secondary: &[u8],
    value: &[u8],
    out: &mut [u8],
    answer: &mut [u8],
) -> u32
    ensures { (result, answer.new, out.new)
        ≡ exported_on (write_one kind (record { major = major; minor = minor; mission = mission; format = format }) secondary.now value.now)
        answer.old out.old }
{
    if answer.len() != answers::ANSWER {
        return write::unwritten();
    }
    let primary = Primary {
        major,
        minor,
        mission,
        format,
    };
    let found = sfdu_write::write_one(kind, primary, secondary, value, out);
    write::write_few(answer, streams::written(found))
}
