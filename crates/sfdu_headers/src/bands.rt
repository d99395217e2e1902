// The letters of the bands.
ghost use Rattle.std.specs.Prelude.{◌≡◌};
ghost use Rattle.sfdu_headers.specs.Ranges.{is_rsr_band, is_band};

pub(crate) fn is_rsr_band(b: u8) -> bool
    ensures { result ≡ is_rsr_band b }
{
    (b == b'S') | (b == b'X') | (b == b'K')
}

pub(crate) fn is_telemetry_band(b: u8) -> bool
    ensures { result ≡ is_band b }
{
    (b == b'U') | is_rsr_band(b)
}
