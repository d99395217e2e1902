// Reads numbers from byte slices and writes them. A number of two, four or eight bytes is made from those bytes at once, so LLVM reads it by one load.
ghost use Rattle.std.specs.Prelude.{◌≡◌, ◌+◌, ◌≤◌, length};
ghost use Rattle.octets.specs.Octets.{number_at, bytes_of, put};
ghost use Rattle.octets.specs.inner.Little.{little_at};

const LONG: usize = 8;

// The big-endian number in the n bytes from index a.
pub fn read_be(s: &[u8], a: usize, n: usize) -> u64
    requires { (n ≤ 8) × (a + n ≤ length s.now) }
    ensures { result ≡ number_at s.now a n }
{
    if n == LONG {
        return read_u64(s, a);
    }
    read_bytes(s, a, n)
}

fn read_bytes(s: &[u8], a: usize, n: usize) -> u64
    requires { (n ≤ 8) × (a + n ≤ length s.now) }
    ensures { result ≡ number_at s.now a n }
{
    let mut v: u64 = 0;
    for b in &s[a..a + n] {
        v = v * 256 + u64::from(*b);
    }
    v
}

// The big-endian number in two, four or eight bytes from index a.
pub fn read_u16(s: &[u8], a: usize) -> u16
    requires { a + 2 ≤ length s.now }
    ensures { result ≡ number_at s.now a 2 }
{
    u16::from_be_bytes([s[a], s[a + 1]])
}

pub fn read_u32(s: &[u8], a: usize) -> u32
    requires { a + 4 ≤ length s.now }
    ensures { result ≡ number_at s.now a 4 }
{
    u32::from_be_bytes([s[a], s[a + 1], s[a + 2], s[a + 3]])
}

pub fn read_u64(s: &[u8], a: usize) -> u64
    requires { a + 8 ≤ length s.now }
    ensures { result ≡ number_at s.now a 8 }
{
    let b = &s[a..a + 8];
    u64::from_be_bytes([b[0], b[1], b[2], b[3], b[4], b[5], b[6], b[7]])
}

// The little-endian number in eight bytes from index a. Twice, since the order of the bytes is which method of u64 is called.
pub fn read_le_u64(s: &[u8], a: usize) -> u64
    requires { a + 8 ≤ length s.now }
    ensures { result ≡ little_at s.now a 8 }
{
    let b = &s[a..a + 8];
    u64::from_le_bytes([b[0], b[1], b[2], b[3], b[4], b[5], b[6], b[7]])
}

// Writes v as n big-endian bytes from index a. By index, since the last byte is written first, and n may be more than a u64 has bytes.
pub fn write_be(s: &mut [u8], a: usize, n: usize, v: u64)
    requires { a + n ≤ length s.old }
    ensures { s.new ≡ put s.old a (bytes_of n v) }
{
    let mut left = v;
    for i in (0..n).rev() {
        s[a + i] = (left % 256) as u8;
        left /= 256;
    }
}
