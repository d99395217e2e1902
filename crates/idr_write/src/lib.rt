// The writer: makes a record from its header words and its samples.

#![tactic(auto)]

ghost use Rattle.std.specs.Prelude.{[], ◌∷◌, ◌++◌, ◌≡◌, ◌≤◌, length};
ghost use Rattle.octets.specs.Octets.{put};
ghost use Rattle.idr.specs.Words.{header_count, samples_at, samples_size, record_size};
ghost use Rattle.idr.specs.Rules.{outcome_number};
ghost use Rattle.idr_write.specs.Write.{word_bytes, write_record};

use octets::numbers;
use refusals::Refusal;

// Writes the record that has these header words and samples. A refusal leaves `out` unchanged.
pub fn write_record(words: &[u16], samples: &[u8], out: &mut [u8]) -> Result<(), Refusal>
    ensures { (outcome_number result ∷ [], out.new) ≡ write_record words.now samples.now out.old }
{
    if out.len() != idr::RECORD {
        return Err(Refusal::TapeLengths);
    }
    if words.len() != idr::HEADER {
        return Err(Refusal::TapeLengths);
    }
    if samples.len() != idr::SAMPLES {
        return Err(Refusal::TapeLengths);
    }
    idr::judge(words)?;
    write_whole(words, samples, out);
    Ok(())
}

fn write_whole(words: &[u16], samples: &[u8], out: &mut [u8])
    requires { (length words.now ≡ header_count) × (length samples.now ≡ samples_size) × (length out.old ≡ record_size) }
    ensures { out.new ≡ word_bytes words.now ++ samples.now }
{
    write_words(words, out);
    octets::copy_in(samples, out, idr::SAMPLES_AT);
}

fn write_words(words: &[u16], out: &mut [u8])
    requires { (length words.now ≡ header_count) × (samples_at ≤ length out.old) }
    ensures { out.new ≡ put out.old 0 (word_bytes words.now) }
{
    for (i, word) in words.iter().enumerate() {
        numbers::write_be(out, i * idr::WORD, idr::WORD, u64::from(*word));
    }
}
