// The widths of samples: each fills a half word exactly.
ghost use Rattle.std.specs.Prelude.{◌≡◌, ◌^◌};
ghost use Rattle.sfdu_samples.specs.Packing.{per_half, per_sample_word};
ghost use Rattle.sfdu_samples.specs.inner.Widths.{IsWidth};

// The bits of a half word.
const HALF_BITS: usize = 16;

// How many bits each sample has. `pack` and `unpack_data` make it once table 3-1 lists the size.
#[derive(Clone, Copy)]
pub struct Width {
    pub bits: u32,
    ghost fills: { IsWidth bits },
}

impl Width {
    // How many codes have this many bits.
    pub(crate) fn codes(self) -> u32
        ensures { result ≡ 2 ^ self.bits }
    {
        1 << self.bits
    }

    pub(crate) fn per_half(self) -> usize
        ensures { result ≡ per_half self.bits }
    {
        HALF_BITS / self.bits as usize
    }

    pub(crate) fn per_sample_word(self) -> usize
        ensures { result ≡ per_sample_word self.bits }
    {
        2 * self.per_half()
    }
}
