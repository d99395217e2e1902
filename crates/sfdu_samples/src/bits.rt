// Signed numbers of 32 bits and their bits, for callers that keep samples as bytes.
ghost use Rattle.std.specs.Prelude.{◌≡◌};
ghost use Rattle.sfdu_samples.specs.Packing.{twos};
ghost use Rattle.sfdu_samples.specs.Bits.{bits_of};

// The bits of a number in two's complement.
pub fn to_bits(z: i32) -> u32
    ensures { result ≡ bits_of z }
{
    z.cast_unsigned()
}

// The number with these bits in two's complement.
pub fn from_bits(v: u32) -> i32
    ensures { result ≡ twos 32 v }
{
    v.cast_signed()
}
