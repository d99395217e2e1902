// Streams of records.
ghost use Rattle.std.specs.Prelude.{◌≡◌};
ghost use Rattle.sfdu.specs.declared.Kind.TheVariants.{Telemetry, Rsr};
ghost use Rattle.sfdu_stream.specs.Walk.{step};
ghost use Rattle.sfdu_stream.specs.Listing.{walked, list_numbers};
ghost use Rattle.sfdu_stream.specs.Room.{most_records};
ghost use Rattle.answers.specs.Numbers.{given, counted};
ghost use Rattle.answers.specs.Streams.{stepped};
ghost use Rattle.host.specs.Exported.{exported, exported_as};

use crate::write;
use answers::streams;
use sfdu::Kind;
use sfdu_stream::Cursor;

// How many whole records the stream begins with, the stop place, and why the walk stops.
#[unsafe(no_mangle)]
pub extern "C" fn hernganow_walk(stream: &[u8], answer: &mut [u8]) -> u32
    ensures { (result, answer.new) ≡ exported (given (walked stream.now)) answer.old }
{
    if answer.len() != answers::ANSWER {
        return write::unwritten();
    }
    let found = sfdu_stream::walk(stream);
    write::write(answer, streams::walked(found))
}

// The record at a place of the stream, and the place behind it.
#[unsafe(no_mangle)]
pub extern "C" fn hernganow_step(stream: &[u8], place: u64, answer: &mut [u8]) -> u32
    ensures { (result, answer.new) ≡ exported (stepped (step stream.now place)) answer.old }
{
    if answer.len() != answers::ANSWER {
        return write::unwritten();
    }
    let cursor = Cursor { at: place as usize };
    let found = cursor.step(stream);
    write::write(answer, streams::step(found))
}

// Writes the records' places, lengths, kinds and numbers into four lists.
#[unsafe(no_mangle)]
pub extern "C" fn hernganow_list_numbers(
    stream: &[u8],
    places: &mut [u64],
    lengths: &mut [u64],
    kinds: &mut [u64],
    numbers: &mut [u64],
    answer: &mut [u8],
) -> u32
    ensures { (
      result,
      answer.new,
      record { places = places.new; lengths = lengths.new; kinds = kinds.new; numbers = numbers.new },
    )
        ≡ exported_as given (list_numbers stream.now) answer.old
        (record { places = places.old; lengths = lengths.old; kinds = kinds.old; numbers = numbers.old }) }
{
    if answer.len() != answers::ANSWER {
        return write::unwritten();
    }
    let found = sfdu_lists::list_wide_numbers(stream, places, lengths, kinds, numbers);
    write::write(answer, streams::walked(found))
}

// The most records that a stream of this many bytes can hold.
#[unsafe(no_mangle)]
pub extern "C" fn hernganow_most_records(bytes: u64, answer: &mut [u8]) -> u32
    ensures { (result, answer.new) ≡ exported (counted (most_records Telemetry bytes)) answer.old }
{
    if answer.len() != answers::ANSWER {
        return write::unwritten();
    }
    let found = sfdu_stream::most_records(Kind::Telemetry, bytes as usize);
    write::write_few(answer, answers::count(found as u64))
}

// The same for a stream of RSR records only.
#[unsafe(no_mangle)]
pub extern "C" fn hernganow_most_rsr_records(bytes: u64, answer: &mut [u8]) -> u32
    ensures { (result, answer.new) ≡ exported (counted (most_records Rsr bytes)) answer.old }
{
    if answer.len() != answers::ANSWER {
        return write::unwritten();
    }
    let found = sfdu_stream::most_records(Kind::Rsr, bytes as usize);
    write::write_few(answer, answers::count(found as u64))
}
