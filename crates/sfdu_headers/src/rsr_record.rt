// What unpack and gain need of an RSR record. The refusals of read headers for kind 2 come first.
ghost use Rattle.std.specs.Prelude.{◌≡◌};
ghost use Rattle.sfdu_headers.specs.RsrRecord.{words_of, read_rsr};

use crate::Headers;
use refusals::Refusal;
use sfdu::{Kind, RecordRefusal};

// The record's length, the mission of its primary value, and its day count.
#[derive(Clone, Copy)]
pub struct RsrRecord {
    pub size: usize,
    pub mission: u8,
    pub day_count: u32,
}

pub fn read_rsr(s: &[u8]) -> Result<RsrRecord, RecordRefusal>
    ensures { words_of result ≡ read_rsr s.now }
{
    let found = crate::read_headers(s, u32::from(Kind::Rsr))?;
    match found {
        Headers::Rsr(headers) => Ok(RsrRecord {
            size: headers.size,
            mission: headers.primary.mission,
            day_count: headers.day_count,
        }),
        // Cannot happen: the caller wants kind 2.
        Headers::Telemetry(_) => Err(RecordRefusal::Alone(Refusal::WrongKind)),
    }
}
