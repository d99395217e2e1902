// The CRC-32 of zlib.
ghost use Rattle.std.specs.Prelude.{ℕ, ◌≡◌, length};
ghost use Rattle.std.specs.Int.{w32, cast_unsigned, to_be_bytes};

const ALL_ONES: u32 = 4294967295;

// For each value of four bits shifted out of the register, what they change in it: polynomial EDB88320, reflected.
const TABLE: [u32; 16] = [
    0x00000000, 0x1DB71064, 0x3B6E20C8, 0x26D930AC, 0x76DC4190, 0x6B6B51F4, 0x4DB26158, 0x5005713C,
    0xEDB88320, 0xF00F9344, 0xD6D6A3E8, 0xCB61B38C, 0x9B64C2B0, 0x86D3D2D4, 0xA00AE278, 0xBDBDF21C,
];

pub fn crc(s: &[u8]) -> u32 {
    over(ALL_ONES, s) ^ ALL_ONES
}

// The CRC of numbers of four bytes, highest byte first. That of no numbers is 0. It stands beside `crc_of_int32s`, since a type of another crate may
// implement `Number` without saying which bytes it gives.
pub fn crc_of_numbers<T: Number>(list: &[T]) -> u32
    ensures { length list.now ≡ 0 → result ≡ 0 }
{
    let mut register = ALL_ONES;
    for n in list {
        register = over(register, &n.bytes());
    }
    ALL_ONES ^ register
}

// A number of four bytes; a negative one in two's complement.
pub trait Number {
    // The bytes, highest first.
    fn bytes(&self) -> [u8; 4];
}

impl Number for u32 {
    fn bytes(&self) -> [u8; 4]
        ensures { result ≡ to_be_bytes w32 self.now }
    {
        <u32 as Int32>::int32_bytes(self)
    }
}

impl Number for i32 {
    fn bytes(&self) -> [u8; 4]
        ensures { result ≡ to_be_bytes w32 (cast_unsigned w32 self.now) }
    {
        <i32 as Int32>::int32_bytes(self)
    }
}

// The CRC of integers of 32 bits, highest byte first.
pub fn crc_of_int32s<T: Int32>(list: &[T]) -> u32 {
    let mut register = ALL_ONES;
    for n in list {
        register = over(register, &n.int32_bytes());
    }
    register ^ ALL_ONES
}

// An integer of 32 bits; a negative one in two's complement. `bits` is the number that the same bits make without a sign.
pub trait Int32 {
    ghost bits: { Self → ℕ };

    // The bytes, highest first.
    fn int32_bytes(&self) -> [u8; 4]
        ensures { result ≡ to_be_bytes w32 (bits self.now) };
}

impl Int32 for u32 {
    ghost bits = { λ n. n };

    fn int32_bytes(&self) -> [u8; 4] {
        self.to_be_bytes()
    }
}

impl Int32 for i32 {
    ghost bits = { λ z. cast_unsigned w32 z };

    fn int32_bytes(&self) -> [u8; 4] {
        self.cast_unsigned().to_be_bytes()
    }
}

// The register after more bytes.
fn over(register: u32, s: &[u8]) -> u32 {
    let mut after = register;
    for b in s {
        after = byte(after, u32::from(*b));
    }
    after
}

fn byte(register: u32, value: u32) -> u32 {
    four_bits(four_bits(register ^ value))
}

fn four_bits(register: u32) -> u32 {
    let i = (register % 16) as usize;
    (register / 16) ^ TABLE[i]
}

#[cfg(test)]
mod tests {
    use super::*;

    // A type as another crate may have it: it gives the four bytes that it holds.
    #[derive(Clone, Copy)]
    struct Held([u8; 4]);

    impl Number for Held {
        fn bytes(&self) -> [u8; 4] {
            self.0
        }
    }

    #[test]
    fn bytes_stand_highest_first(rt: HostRuntime) {
        assert_eq!(rt; 16909060u32.bytes(), [1, 2, 3, 4]);
        assert_eq!(rt; (-2i32).bytes(), [255, 255, 255, 254]);
    }

    // The values are those of Python's zlib.crc32.
    #[test]
    fn crcs_are_those_of_zlib(rt: HostRuntime) {
        assert_eq!(rt; crc_of_numbers::<u32>(&[]), 0);
        assert_eq!(rt; crc_of_numbers(&[1u32, 4294967295]), 0x86F9D63A);
        assert_eq!(rt; crc_of_numbers(&[-1i32, -2147483648]), 0x12A649C4);
        let held = [Held(*b"1234"), Held(*b"5678")];
        assert_eq!(rt; crc_of_numbers(&held), 0x9AE0DAAF);
    }
}
