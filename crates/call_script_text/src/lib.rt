// A script's calls on records, keys, streams and tapes. Each makes a line of text.

#![tactic(auto)]

pub mod crc;
pub mod line;
mod lists;
mod ops;
mod records;
mod samples;
mod tapes;

ghost use Rattle.std.specs.Prelude.{◌≡◌, take};

pub use ops::{Op, UnknownOp};
use refusals::Refusal;

// A frame: the op, its numbers, and the lengths of the two runs of bytes that follow it.
#[derive(Clone, Copy)]
pub struct Frame {
    pub op: Op,
    pub x: u32,
    pub y: u32,
    pub z: u32,
    pub w: u32,
    pub key: u64,
    pub a: usize,
    pub b: usize,
}

// The number of an accepted call.
pub const ACCEPTED: u64 = 0;

// What lent bytes hold before a call writes them; and how many bytes write one and pack are lent at most.
pub const FILL: u8 = 165;

const MOST_SLICE: usize = 70000;

// How many numbers an accepted answer has.
const KEY: usize = 2;

const DATE: usize = 3;

const PARTS: usize = 6;

// The first n elements of s; all of s if it has fewer.
pub fn first<T>(s: &[T], n: usize) -> &[T]
    ensures { result.now ≡ take n s.now }
{
    s.get(..n).unwrap_or(s)
}

// Makes a call that is lent no sheet. The line of a bad frame has no words.
pub fn on_bytes(f: Frame, a: &[u8], b: &[u8], out: &mut [u8], at: usize) -> usize {
    match f.op {
        Op::ReadOne => records::read_one(a, out, at),
        Op::SecondaryPart => records::part(sfdu::secondary_part(a), out, at),
        Op::DataPart => records::part(sfdu::data_part(a), out, at),
        Op::ReadHeaders => records::read_headers(a, f.x, out, at),
        Op::WriteOne => records::write_one(f, a, b, out, at),
        Op::TelemetryKey => key(keys::telemetry_key(f.x, f.y, f.z, f.w), out, at),
        Op::RsrKey => key(keys::rsr_key(f.x, f.y, f.z, f.w), out, at),
        Op::Walk => records::walked(sfdu_stream::walk(a), out, at),
        Op::ListNumbers => lists::list_numbers(f, a, out, at),
        Op::KeyParts => line::told(out, at, &answers::parts(keys::parts(f.key)), PARTS),
        Op::Step => records::step(a, f.key, out, at),
        Op::DateOf => line::told(out, at, &answers::date(dates::date_of(f.x)), DATE),
        Op::Unpack => samples::unpack(f, a, out, at),
        Op::Pack => samples::pack(f, a, out, at),
        Op::Gain => samples::gain(a, f.x, out, at),
        Op::ReadTape => tapes::read(a, out, at),
        Op::WriteTape => tapes::write(f, a, b, out, at),
        _ => at,
    }
}

fn key(found: Result<u64, Refusal>, out: &mut [u8], at: usize) -> usize {
    line::told(out, at, &answers::key(found), KEY)
}
