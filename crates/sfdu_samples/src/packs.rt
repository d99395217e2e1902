// Packs numbers into words of samples.
ghost use Rattle.std.specs.Prelude.{◌≡◌, ◌+◌, ◌*◌, ◌<◌, ◌≤◌, true, length, drop};
ghost use Rattle.std.proofs.lemmas.List.Edits.{sets};
ghost use Rattle.sfdu_samples.specs.Packing.{code_of, has_code, half_sample_word, per_half, per_sample_word, half_of, sample_word_of};
ghost use Rattle.sfdu_samples.specs.Packing.{packed_sample_words, all_coded};
ghost use Rattle.sfdu_samples.specs.inner.Unpacking.{raised};
ghost use Rattle.sfdu_samples.specs.inner.Stored.{from_lowest};
ghost use Rattle.octets.specs.Octets.{bytes_of};

use crate::unpacks;
use crate::width::Width;

// Added to a number so that it is not negative. It is an even multiple of 2^size for every size.
const RAISE: u32 = 2147483648;

// The weights of the second, third and fourth byte from the lowest.
const SECOND: u32 = 256;

const THIRD: u32 = 65536;

const FOURTH: u32 = 16777216;

fn raise(z: i32) -> u32
    ensures { result ≡ raised z }
{
    (z as i64 + RAISE as i64) as u32
}

fn has_code(z: i32, width: Width) -> bool
    ensures { result ≡ has_code width.bits z }
{
    let raised = raise(z);
    let limit = width.codes();
    (raised % 2 == 1) & (RAISE - limit < raised) & (raised < RAISE + limit)
}

// Whether every number is the value of a code. The loop has no early exit, so LLVM vectorizes it.
pub(crate) fn is_coded(samples: &[i32], width: Width) -> bool
    ensures { result ≡ all_coded width.bits samples.now }
{
    let mut every = true;
    for z in samples {
        every &= has_code(*z, width);
    }
    every
}

fn code_of(z: i32, width: Width) -> u32
    requires { has_code width.bits z ≡ true }
    ensures { result ≡ code_of width.bits z }
{
    raise(z) / 2 % width.codes()
}

// The half word with the codes of every second number from index `at` on. The last is in the highest bits. By index, since it takes every second
// number, the last one first.
fn half_of(samples: &[i32], at: usize, width: Width) -> u32
    requires { (at + per_sample_word width.bits ≤ length samples.now + 1) × (all_coded width.bits samples.now ≡ true) }
    ensures { (result ≡ half_of width.bits (per_half width.bits) (drop at samples.now)) × (result < half_sample_word) }
{
    let base = width.codes();
    let mut half = 0;
    for k in (0..width.per_half()).rev() {
        let z = samples[at + 2 * k];
        half = half * base + code_of(z, width);
    }
    half
}

fn sample_word_of(samples: &[i32], at: usize, width: Width) -> u32
    requires { (at + per_sample_word width.bits ≤ length samples.now) × (all_coded width.bits samples.now ≡ true) }
    ensures { result ≡ sample_word_of width.bits (drop at samples.now) }
{
    let i = half_of(samples, at, width);
    let q = half_of(samples, at + 1, width);
    q * unpacks::HALF + i
}

// The word with its bytes in reverse order.
fn swapped(w: u32) -> u32
    ensures { from_lowest result ≡ bytes_of 4 w }
{
    w % SECOND * FOURTH + w / SECOND % SECOND * THIRD + w / THIRD % SECOND * SECOND + w / FOURTH
}

// Stores a word lowest byte first, as the machine does.
fn store(out: &mut [u8], at: usize, w: u32)
    requires { at + 4 ≤ length out.old }
    ensures { out.new ≡ sets out.old at (from_lowest w) }
{
    out[at] = (w % SECOND) as u8;
    out[at + 1] = (w / SECOND % SECOND) as u8;
    out[at + 2] = (w / THIRD % SECOND) as u8;
    out[at + 3] = (w / FOURTH) as u8;
}

// Writes a word highest byte first. Swapping and storing are two functions: LLVM turns the one into a swap and the other into one store before it
// inlines them, and then vectorizes a loop of both.
fn write_word(out: &mut [u8], at: usize, word: u32)
    requires { at + 4 ≤ length out.old }
    ensures { out.new ≡ sets out.old at (bytes_of 4 word) }
{
    store(out, at, swapped(word));
}

// By index, since the index of a word gives both its place in `out` and that of its numbers in the list.
fn pack_sample_words(samples: &[i32], words: usize, width: Width, out: &mut [u8])
    requires { (words * per_sample_word width.bits ≤ length samples.now) × (words * 4 ≤ length out.old) × (all_coded width.bits samples.now ≡ true) }
    ensures { out.new ≡ sets out.old 0 (packed_sample_words width.bits words samples.now) }
{
    let per = width.per_sample_word();
    for i in 0..words {
        write_word(
            out,
            i * unpacks::SAMPLE_WORD,
            sample_word_of(samples, i * per, width),
        );
    }
}

// A switch, since each arm gives the width as a constant, so that LLVM unrolls the loop over a half word.
pub(crate) fn pack_sized(samples: &[i32], words: usize, width: Width, out: &mut [u8])
    requires { (words * per_sample_word width.bits ≤ length samples.now) × (words * 4 ≤ length out.old) × (all_coded width.bits samples.now ≡ true) }
    ensures { out.new ≡ sets out.old 0 (packed_sample_words width.bits words samples.now) }
{
    match width.bits {
        1 => pack_sample_words(samples, words, Width { bits: 1 }, out),
        2 => pack_sample_words(samples, words, Width { bits: 2 }, out),
        4 => pack_sample_words(samples, words, Width { bits: 4 }, out),
        8 => pack_sample_words(samples, words, Width { bits: 8 }, out),
        16 => pack_sample_words(samples, words, Width { bits: 16 }, out),
        _ => pack_sample_words(samples, words, width, out),
    }
}
