// Byte slices: reads and writes numbers of 1 to 8 bytes; tests, clears and copies ranges.

#![tactic(auto)]

pub mod numbers;

ghost use Rattle.std.specs.Prelude.{◌≡◌, ◌+◌, ◌*◌, ◌≤◌, length, replicate};
ghost use Rattle.octets.specs.Octets.{part, put, zero_at, same_at};

// The bytes of a vector. Aligned loads never straddle cache lines. A slice on the heap begins at an aligned address.
const VECTOR: usize = 16;

// A long range is tested in four parts. One turn of the vectorized loop tests this many bytes of each part.
const STEP: usize = 2 * VECTOR;

const BLOCK: usize = 4 * STEP;

// At most this many bytes at the end of a long range lie behind its four parts.
const REST: usize = BLOCK + VECTOR;

// Whether the n bytes from index a are zero. The loop has no early exit, so LLVM vectorizes it. That the range lies in the slice is said in each
// function, since the contracts above speak of places in the whole slice (`zero_at`, `same_at`, `number_at`, `put`).
pub fn is_zero(s: &[u8], a: usize, n: usize) -> bool
    requires { a + n ≤ length s.now }
    ensures { result ≡ zero_at s.now a n }
{
    let mut any: u8 = 0;
    for b in &s[a..a + n] {
        any |= *b;
    }
    any == 0
}

// The same for a long range: tests its first vector, then four parts side by side from the next aligned index, then its last bytes. The four parts
// need fewer turns of the loop, and their loads are aligned.
pub fn is_long_zero(s: &[u8], a: usize, n: usize) -> bool
    requires { a + n ≤ length s.now }
    ensures { result ≡ zero_at s.now a n }
{
    if n < REST {
        return is_zero(s, a, n);
    }
    let start = a / VECTOR * VECTOR + VECTOR;
    let first = is_zero(s, a, VECTOR);
    let parts = are_zero(s, start, (n - VECTOR) / BLOCK * STEP);
    let last = is_zero(s, a + (n - REST), REST);
    first & parts & last
}

// Whether 4n bytes from index a are zero. Tests four ranges of n bytes side by side. By index, since each turn reads four places of one slice.
fn are_zero(s: &[u8], a: usize, n: usize) -> bool
    requires { a + 4 * n ≤ length s.now }
    ensures { result ≡ zero_at s.now a (4 * n) }
{
    let b = a + n;
    let c = b + n;
    let d = c + n;
    let mut any: u8 = 0;
    for i in 0..n {
        any |= s[a + i] | s[b + i] | s[c + i] | s[d + i];
    }
    any == 0
}

// Whether the n bytes of s from index a equal the n bytes of t from index b. s and t may be the same slice. By index, since `==` of two slices takes
// 5.5 nanoseconds for a tag of four bytes, and this loop 2.7: read one and the walk compare two tags of each record.
pub fn is_same(s: &[u8], a: usize, t: &[u8], b: usize, n: usize) -> bool
    requires { (a + n ≤ length s.now) × (b + n ≤ length t.now) }
    ensures { result ≡ same_at s.now a t.now b n }
{
    let mut any: u8 = 0;
    for i in 0..n {
        any |= s[a + i] ^ t[b + i];
    }
    any == 0
}

// Sets the n bytes from index a to zero. That the range lies in the slice is said in each, since `put` speaks of a place in the whole slice.
pub fn clear(s: &mut [u8], a: usize, n: usize)
    requires { a + n ≤ length s.old }
    ensures { s.new ≡ put s.old a (replicate n 0) }
{
    s[a..a + n].fill(0);
}

// Copies the n bytes from index a to index b. The ranges may overlap.
pub fn copy(s: &mut [u8], a: usize, b: usize, n: usize)
    requires { (a + n ≤ length s.old) × (b + n ≤ length s.old) }
    ensures { s.new ≡ put s.old b (part s.old a n) }
{
    s.copy_within(a..a + n, b);
}

// Copies all of `source` to index a of `out`.
pub fn copy_in(source: &[u8], out: &mut [u8], a: usize)
    requires { a + length source.now ≤ length out.old }
    ensures { out.new ≡ put out.old a source.now }
{
    out[a..a + source.len()].copy_from_slice(source);
}
