// Stream keys.
ghost use Rattle.std.specs.Prelude.{◌≡◌};
ghost use Rattle.keys.specs.Key.{telemetry_key_call, rsr_key_call, parts_call, valid_key};
ghost use Rattle.answers.specs.Numbers.{plain, flagged};
ghost use Rattle.host.specs.Exported.{exported};

use crate::write;

// The key of a telemetry stream.
#[unsafe(no_mangle)]
pub extern "C" fn hernganow_telemetry_key(
    spacecraft: u32,
    source: u32,
    equipment: u32,
    stream: u32,
    answer: &mut [u8],
) -> u32
    ensures { (result, answer.new) ≡ exported (plain (telemetry_key_call spacecraft source equipment stream)) answer.old }
{
    if answer.len() != answers::ANSWER {
        return write::unwritten();
    }
    let found = keys::telemetry_key(spacecraft, source, equipment, stream);
    write::write_few(answer, answers::key(found))
}

// The key of an RSR stream.
#[unsafe(no_mangle)]
pub extern "C" fn hernganow_rsr_key(
    spacecraft: u32,
    station: u32,
    receiver: u32,
    subchannel: u32,
    answer: &mut [u8],
) -> u32
    ensures { (result, answer.new) ≡ exported (plain (rsr_key_call spacecraft station receiver subchannel)) answer.old }
{
    if answer.len() != answers::ANSWER {
        return write::unwritten();
    }
    let found = keys::rsr_key(spacecraft, station, receiver, subchannel);
    write::write_few(answer, answers::key(found))
}

// The kind and the four numbers of a key.
#[unsafe(no_mangle)]
pub extern "C" fn hernganow_parts(key: u64, answer: &mut [u8]) -> u32
    ensures { (result, answer.new) ≡ exported (plain (parts_call key)) answer.old }
{
    if answer.len() != answers::ANSWER {
        return write::unwritten();
    }
    let found = keys::parts(key);
    write::write(answer, answers::parts(found))
}

// Whether a key is valid: 1 or 0.
#[unsafe(no_mangle)]
pub extern "C" fn hernganow_key_valid(key: u64, answer: &mut [u8]) -> u32
    ensures { (result, answer.new) ≡ exported (flagged (valid_key key)) answer.old }
{
    if answer.len() != answers::ANSWER {
        return write::unwritten();
    }
    let found = keys::valid(key);
    write::write_few(answer, answers::key_valid(found))
}
