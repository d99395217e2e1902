// The samples of a record as text, one pair on each line, or as raw bytes. Writes them into a lent slice, part by part.

#![tactic(auto)]

ghost use Rattle.std.specs.Prelude.{◌≡◌, ◌+◌, ◌≤◌, length};
ghost use Rattle.text.specs.Text.{Puts};
ghost use Rattle.rsr_samples_text.specs.Text.{signed_numeral, raw_bytes, ending_at, number_text};
ghost use Rattle.rsr_samples_text.specs.inner.Room.{most_number};
ghost use Rattle.rsr_samples_text.specs.Part.{LaysOut};

// How many bytes the text of a number has at most: a sign, 20 digits and the byte behind them.
const MOST: usize = 22;

// The bits of a negative number, read as unsigned, are this much more than the number; and the least such bits.
const RANGE: u64 = 4294967296;

const NEGATIVE: u32 = 2147483648;

const BYTE_VALUES: u32 = 256;

// Where a part ends: the index behind its last number in the list, and the index behind its text in the slice.
#[derive(Clone, Copy)]
pub struct Laid {
    pub upto: usize,
    pub end: usize,
}

// Writes the numbers from index `from` on at the slice's start, as many as have room.
pub fn lay_out(list: &[i32], from: usize, raw: bool, out: &mut [u8]) -> Laid
    requires { (from ≤ length list.now) × (most_number ≤ length out.old) }
    ensures { LaysOut raw list.now from out.old out.new result }
{
    let room = out.len() - MOST;
    let mut at = 0;
    // By index, since a number's place decides what stands behind it, and where the next part begins.
    for i in from..list.len() {
        if room < at {
            return Laid { upto: i, end: at };
        }
        let z = list[i];
        at = put_number(out, at, z, i, raw);
    }
    Laid {
        upto: list.len(),
        end: at,
    }
}

// Writes number i of a list. That there is room is said in each, since `out` is lent whole and `at` is a place in it.
fn put_number(out: &mut [u8], at: usize, z: i32, i: usize, raw: bool) -> usize
    requires { at + most_number ≤ length out.old }
    ensures puts { Puts out.old out.new at result (number_text raw i z) }
    ensures upper_bound { result ≤ at + most_number }
{
    if raw {
        return put_raw(out, at, z);
    }
    put_signed(out, at, z, ending(i))
}

// The byte behind number i: a line ends behind every second number.
fn ending(i: usize) -> u8
    ensures { result ≡ ending_at i }
{
    if i % 2 == 0 {
        return text::SPACE;
    }
    text::LINE_END
}

fn put_signed(out: &mut [u8], at: usize, z: i32, after: u8) -> usize
    requires { at + most_number ≤ length out.old }
    ensures puts { Puts out.old out.new at result (signed_numeral z after) }
    ensures upper_bound { result ≤ at + most_number }
{
    let bits = sfdu_samples::to_bits(z);
    if bits < NEGATIVE {
        return text::put_numeral(out, at, bits as u64, after);
    }
    out[at] = b'-';
    text::put_numeral(out, at + 1, RANGE - bits as u64, after)
}

// Writes the four bytes of the number's two's complement, lowest first.
fn put_raw(out: &mut [u8], at: usize, z: i32) -> usize
    requires { at + most_number ≤ length out.old }
    ensures puts { Puts out.old out.new at result (raw_bytes z) }
    ensures upper_bound { result ≤ at + most_number }
{
    let bits = sfdu_samples::to_bits(z);
    let b = at + 1;
    let c = b + 1;
    let d = c + 1;
    out[at] = (bits % BYTE_VALUES) as u8;
    out[b] = (bits / BYTE_VALUES % BYTE_VALUES) as u8;
    out[c] = (bits / BYTE_VALUES / BYTE_VALUES % BYTE_VALUES) as u8;
    out[d] = (bits / BYTE_VALUES / BYTE_VALUES / BYTE_VALUES % BYTE_VALUES) as u8;
    d + 1
}
