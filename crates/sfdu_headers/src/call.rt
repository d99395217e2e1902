// Read headers, for a wanted kind.
ghost use Rattle.std.specs.Prelude.{◌≡◌, ◌≤◌, length};
ghost use Rattle.sfdu.specs.Nesting.{data_value_at};
ghost use Rattle.sfdu_headers.specs.Headers.{words_of, read_headers};
ghost use Rattle.sfdu_headers.specs.inner.Numbers.{number_in};
ghost use Rattle.sfdu_headers.specs.inner.Streams.{stream_key_in};

use crate::{Headers, rsr, telemetry};
use refusals::Refusal;
use sfdu::{Kind, RecordRefusal, nesting};

// The headers of the first record of a slice, if it is of the wanted kind. Each kind returns its own answer: if both went through one variable, LLVM
// would copy every field.
pub fn read_headers(s: &[u8], wanted: u32) -> Result<Headers, RecordRefusal>
    ensures { words_of result ≡ read_headers wanted s.now }
{
    let found = sfdu::read_one(s)?;
    let kind = found.kind;
    if wanted != u32::from(kind) {
        return Err(RecordRefusal::Alone(Refusal::WrongKind));
    }
    match kind {
        Kind::Telemetry => {
            let headers = telemetry::headers(s, found.size, found.primary)?;
            return Ok(Headers::Telemetry(headers));
        }
        Kind::Rsr => {
            let headers = rsr::headers(s, found.size, found.primary)?;
            return Ok(Headers::Rsr(headers));
        }
    }
}

// The record number of a record of this kind; 0 if the slice is too short for one. A number, since the contract says `number_in`, which is 0 there.
pub fn record_number(s: &[u8], kind: Kind) -> u32
    ensures { result ≡ number_in kind s.now }
{
    if s.len() < nesting::data_value_at(kind) {
        return 0;
    }
    match kind {
        Kind::Telemetry => telemetry::number(s),
        Kind::Rsr => rsr::number(s) as u32,
    }
}

// The stream key of a record that is known to be whole, if no field of its header is out of range. Its blocks are not tested again.
pub fn stream_key(s: &[u8], kind: Kind) -> Option<u64>
    requires { data_value_at kind ≤ length s.now }
    ensures { result ≡ stream_key_in kind s.now }
{
    match kind {
        Kind::Telemetry => telemetry::stream_key(s),
        Kind::Rsr => rsr::stream_key(s),
    }
}
