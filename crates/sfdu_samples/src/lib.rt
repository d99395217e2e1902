// The samples of an RSR record: unpacks its data part into pairs of numbers, and packs numbers into a data part.

#![tactic(auto)]

pub mod rates;

ghost use Rattle.std.specs.Prelude.{◌≡◌, ◌≤◌, length};
ghost use Rattle.sfdu.specs.declared.Kind.TheVariants.{Rsr as RsrKind};
ghost use Rattle.sfdu.specs.Nesting.{data_value_at};
ghost use Rattle.sfdu_samples.specs.Calls.{words_of, size_of, rate_of, unpacking, packing};

pub use bits::{from_bits, to_bits};
use octets::numbers;
use refusals::Refusal;
use sfdu::{RecordRefusal, nesting};
use width::Width;

mod bits;
mod packs;
mod unpacks;
mod width;

// The offsets of the samples' size and rate from the record's start.
const SIZE_AT: usize = nesting::SECONDARY_AT + 36;

const RATE_AT: usize = nesting::SECONDARY_AT + 38;

// Writes the numbers of a record's data part, I before Q, to the start of the list, and answers how many.
pub fn unpack(s: &[u8], list: &mut [i32]) -> Result<usize, RecordRefusal>
    ensures { (words_of result, list.new) ≡ unpacking s.now list.old }
{
    let rsr = sfdu_headers::rsr_record::read_rsr(s)?;
    let bits = sample_size(s);
    let rate = sample_rate(s);
    unpacks::unpack_data(&s[nesting::RSR_DATA_VALUE_AT..rsr.size], bits, rate, list)
}

fn sample_size(s: &[u8]) -> u32
    requires { data_value_at RsrKind ≤ length s.now }
    ensures { result ≡ size_of s.now }
{
    u32::from(s[SIZE_AT])
}

fn sample_rate(s: &[u8]) -> u32
    requires { data_value_at RsrKind ≤ length s.now }
    ensures { result ≡ rate_of s.now }
{
    u32::from(numbers::read_u16(s, RATE_AT))
}

// Writes the data part that holds the samples to the start of `out`, and answers how many bytes.
pub fn pack(size: u32, rate: u32, samples: &[i32], out: &mut [u8]) -> Result<usize, RecordRefusal>
    ensures { (words_of result, out.new) ≡ packing size rate samples.now out.old }
{
    if !crate::rates::is_listed(size, rate) {
        return Err(RecordRefusal::Alone(Refusal::SamplePair));
    }
    let width = Width { bits: size };
    let per = width.per_sample_word();
    if samples.len() % per != 0 {
        return Err(RecordRefusal::Alone(Refusal::SampleWords));
    }
    if !packs::is_coded(samples, width) {
        return Err(RecordRefusal::Alone(Refusal::SampleValue));
    }
    let words = samples.len() / per;
    if out.len() / unpacks::SAMPLE_WORD < words {
        return Err(RecordRefusal::Alone(Refusal::SampleSpace));
    }
    packs::pack_sized(samples, words, width, out);
    Ok(words * unpacks::SAMPLE_WORD)
}
