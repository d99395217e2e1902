// The header fields of a record of either kind, and its stream key.

#![tactic(auto)]

mod bands;
mod call;
mod rsr;
pub mod rsr_record;
mod telemetry;

pub use call::{read_headers, record_number, stream_key};
use sfdu::Primary;

// The fields of a telemetry record's secondary block. The uplink band is unused if the predicts mode has no band.
#[derive(Clone, Copy)]
pub struct TelemetryFields {
    pub spacecraft: u16,
    pub source: u8,
    pub received: u64,
    pub number: u32,
    pub uplink: Option<u8>,
    pub mode: u8,
    pub stream: u8,
    pub equipment: u16,
}

// The source of an RSR record.
#[derive(Clone, Copy)]
pub struct RsrSource {
    pub software: u16,
    pub number: u16,
    pub complex: u8,
    pub station: u8,
    pub receiver: u8,
    pub subchannel: u8,
    pub spacecraft: u8,
    pub pass: u16,
}

// The signal in an RSR record.
#[derive(Clone, Copy)]
pub struct RsrSignal {
    pub uplink: u8,
    pub downlink: u8,
    pub mode: u8,
    pub uplink_station: u8,
    pub expected: i8,
    pub bandwidth: u8,
    pub overridden: u8,
    pub attenuation: u8,
    pub rms: u8,
    pub peak: u8,
}

// The year and the day of an RSR record's ADC reading, and the override frequency.
#[derive(Clone, Copy)]
pub struct RsrReading {
    pub year: u16,
    pub day: u16,
    pub frequency: u64,
}

// A telemetry record's received time: days from 1 January 1958, milliseconds of the day, extended resolution. No call tests them.
#[derive(Clone, Copy)]
pub struct ReceivedTime {
    pub days: u16,
    pub milliseconds: u32,
    pub extended: u16,
}

// The values that a tested byte may have. (Public because the prover needs it.) Its own enum, since both variants say which values: a range, or the
// letters of the bands.
#[derive(Clone, Copy)]
pub enum Allowed {
    Between(u8, u8),
    Bands,
}

// A byte that is tested: its offset from the record's start, and the values it may have. (Public because the prover needs it.)
#[derive(Clone, Copy)]
pub struct ByteRule {
    pub at: usize,
    pub allowed: Allowed,
}

// A telemetry record: its length, its primary value, its fields, its stream key and its received time.
#[derive(Clone, Copy)]
pub struct TelemetryHeaders {
    pub size: usize,
    pub primary: Primary,
    pub fields: TelemetryFields,
    pub key: u64,
    pub received: ReceivedTime,
}

// An RSR record: its length, its primary value, its fields, its stream key and its day count.
#[derive(Clone, Copy)]
pub struct RsrHeaders {
    pub size: usize,
    pub primary: Primary,
    pub source: RsrSource,
    pub signal: RsrSignal,
    pub time: RsrReading,
    pub key: u64,
    pub day_count: u32,
}

// What read headers finds.
#[derive(Clone, Copy)]
pub enum Headers {
    Telemetry(TelemetryHeaders),
    Rsr(RsrHeaders),
}
