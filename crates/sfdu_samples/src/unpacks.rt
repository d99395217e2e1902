// Unpacks words of samples. The width is a parameter: one function serves every size.
ghost use Rattle.std.specs.Prelude.{◌≡◌, ◌+◌, ◌-◌, ◌*◌, ◌/◌, ◌%◌, ◌^◌, ◌<◌, ◌≤◌, length};
ghost use Rattle.std.proofs.lemmas.List.Edits.{sets};
ghost use Rattle.sfdu_samples.specs.Packing.{per_sample_word, twos, value_of, samples_of, unpacked_sample_words};
ghost use Rattle.sfdu_samples.specs.Calls.{words_of};
ghost use Rattle.sfdu_samples.specs.inner.Unpacking.{unpacking_data};

use crate::width::Width;
use octets::numbers;
use refusals::Refusal;
use sfdu::RecordRefusal;

// The bytes of a word.
pub const SAMPLE_WORD: usize = 4;

// The weight of the upper half of a word.
pub const HALF: u32 = 65536;

// The bits of a word and of a half word, as u32 for shifts.
const SAMPLE_WORD_BITS: u32 = 32;

const HALF_SAMPLE_WORD_BITS: u32 = 16;

// Unpacks a data part of this size and rate.
pub(crate) fn unpack_data(
    d: &[u8],
    size: u32,
    rate: u32,
    list: &mut [i32],
) -> Result<usize, RecordRefusal>
    ensures { (words_of result, list.new) ≡ unpacking_data size rate d.now list.old }
{
    if !crate::rates::is_listed(size, rate) {
        return Err(RecordRefusal::Alone(Refusal::SamplePair));
    }
    if d.len() % SAMPLE_WORD != 0 {
        return Err(RecordRefusal::Alone(Refusal::SampleWords));
    }
    let words = d.len() / SAMPLE_WORD;
    let width = Width { bits: size };
    let per = width.per_sample_word();
    if list.len() / per < words {
        return Err(RecordRefusal::Alone(Refusal::SampleSpace));
    }
    unpack_sized(d, words, width, list);
    Ok(words * per)
}

// A code of this many bits as a number in two's complement. With its highest bit flipped, the code is that number plus half the number of codes. LLVM
// turns this and the shift before it into one arithmetic shift.
fn signed(code: u32, width: Width) -> i32
    requires { code < 2 ^ width.bits }
    ensures { result ≡ twos width.bits code }
{
    let half = width.codes() / 2;
    (code ^ half) as i32 - half as i32
}

// The value of the sample that begins `up` bits below the top of a word.
fn sample(word: u32, up: u32, width: Width) -> i32
    requires { up + width.bits ≤ 32 }
    ensures { result ≡ value_of width.bits (word / 2 ^ (32 - width.bits - up) % 2 ^ width.bits) }
{
    let code = (word << up) >> (SAMPLE_WORD_BITS - width.bits);
    2 * signed(code, width) + 1
}

// Writes the samples of a word, lowest bits first, to the list from index `at` on. By index, since the index of a pair gives both its bits in the word
// and its two places in the list.
fn unpack_sample_word(word: u32, width: Width, list: &mut [i32], at: usize)
    requires { at + per_sample_word width.bits ≤ length list.old }
    ensures { list.new ≡ sets list.old at (samples_of width.bits word) }
{
    let mut up = SAMPLE_WORD_BITS;
    for k in 0..width.per_half() {
        up -= width.bits;
        list[at + 2 * k] = sample(word, up, width);
        list[at + 2 * k + 1] = sample(word, up - HALF_SAMPLE_WORD_BITS, width);
    }
}

// By index, since two places go on at each word: that of its bytes, and that of its numbers. The second is counted beside the index, since `i * per`
// takes 0.165 nanoseconds a byte at 16 bits, and this 0.137.
fn unpack_sample_words(d: &[u8], words: usize, width: Width, list: &mut [i32])
    requires { (words * 4 ≤ length d.now) × (words * per_sample_word width.bits ≤ length list.old) }
    ensures { list.new ≡ sets list.old 0 (unpacked_sample_words width.bits words d.now) }
{
    let per = width.per_sample_word();
    let mut to = 0;
    for i in 0..words {
        unpack_sample_word(numbers::read_u32(d, i * SAMPLE_WORD), width, list, to);
        to += per;
    }
}

// A switch, since each arm gives the width as a constant, so that LLVM unrolls the loop over a word.
fn unpack_sized(d: &[u8], words: usize, width: Width, list: &mut [i32])
    requires { (words * 4 ≤ length d.now) × (words * per_sample_word width.bits ≤ length list.old) }
    ensures { list.new ≡ sets list.old 0 (unpacked_sample_words width.bits words d.now) }
{
    match width.bits {
        1 => unpack_sample_words(d, words, Width { bits: 1 }, list),
        2 => unpack_sample_words(d, words, Width { bits: 2 }, list),
        4 => unpack_sample_words(d, words, Width { bits: 4 }, list),
        8 => unpack_sample_words(d, words, Width { bits: 8 }, list),
        16 => unpack_sample_words(d, words, Width { bits: 16 }, list),
        _ => unpack_sample_words(d, words, width, list),
    }
}
