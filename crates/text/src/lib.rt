// Writes text into a lent slice. Each function writes from index `at` on, and gives the index behind its text.

#![tactic(auto)]

ghost use Rattle.std.specs.Prelude.{◌+◌, ◌≤◌, length};
ghost use Rattle.text.specs.Text.{numeral, Puts};
ghost use Rattle.text.specs.inner.Room.{most_numeral};

pub const SPACE: u8 = b' ';

pub const LINE_END: u8 = b'\n';

pub fn put_text(out: &mut [u8], at: usize, source: &[u8]) -> usize
    requires { at + length source.now ≤ length out.old }
    ensures { Puts out.old out.new at result source.now }
{
    octets::copy_in(source, out, at);
    at + source.len()
}

// Writes a number in decimal, and a byte behind it. A fixed array, since the text crates use no heap, and a u64 has at most 20 digits.
pub fn put_numeral(out: &mut [u8], at: usize, n: u64, after: u8) -> usize
    requires { at + most_numeral ≤ length out.old }
    ensures puts { Puts out.old out.new at result (numeral n after) }
    ensures upper_bound { result ≤ at + most_numeral }
{
    let mut digits = [0u8; 20];
    let k = io::decimal(n, &mut digits);
    let end = put_text(out, at, &digits[..k]);
    out[end] = after;
    end + 1
}
