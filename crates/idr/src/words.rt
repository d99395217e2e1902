// The words of a record and their bits.
ghost use Rattle.std.specs.Prelude.{◌≡◌, ◌+◌, ◌-◌, ◌^◌, ◌≤◌, ◌<◌, length};
ghost use Rattle.idr.specs.Words.{word_bits, header_count, samples_at, bits, field_of, long_of, header};

use crate as idr;
use octets::numbers;

const BITS: usize = 16;

// The weight of the upper half of a long number.
const UPPER: u32 = 65536;

// Bits `first` to `last` of a word. Bits count from 1; bit 1 is the highest.
fn bits_of(x: u16, first: usize, last: usize) -> u16
    requires { (1 ≤ first) × (first ≤ last) × (last ≤ word_bits) }
    ensures { (result ≡ bits x first last) × (result < 2 ^ (last + 1 - first)) }
{
    let width = last + 1 - first;
    ((x as u32 >> (BITS - last)) % (1u32 << width)) as u16
}

// Bits `first` to `last` of word k. Words count from 1.
pub(crate) fn field(w: &[u16; idr::HEADER], k: usize, first: usize, last: usize) -> u16
    requires { (1 ≤ k) × (k ≤ header_count) × (1 ≤ first) × (first ≤ last) × (last ≤ word_bits) }
    ensures { (result ≡ field_of w.now k first last) × (result < 2 ^ (last + 1 - first)) }
{
    bits_of(w[k - 1], first, last)
}

pub(crate) fn long(high: u16, low: u16) -> u32
    ensures { result ≡ long_of high low }
{
    high as u32 * UPPER + low as u32
}

// The header words of a record.
pub(crate) fn header(s: &[u8]) -> [u16; idr::HEADER]
    requires { samples_at ≤ length s.now }
    ensures { result ≡ header s.now }
{
    let mut w = [0; idr::HEADER];
    for (i, word) in w.iter_mut().enumerate() {
        *word = numbers::read_u16(s, i * idr::WORD);
    }
    w
}
