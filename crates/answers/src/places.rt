// The index of each number of an answer. The refusal's number, or 0, comes first.
pub const REFUSAL: usize = 0;

// The second number of a record's refusal.
pub const FAULT: usize = 1;

// A key; the row that was enrolled or found.
pub const KEY: usize = 1;

pub const ROW: usize = 1;

// A key's parts: its kind and its four numbers.
pub const PARTS_KIND: usize = 1;

pub const PARTS_SPACECRAFT: usize = 2;

pub const PARTS_SOURCE: usize = 3;

pub const PARTS_EQUIPMENT: usize = 4;

pub const PARTS_STREAM: usize = 5;

pub const PARTS_STATION: usize = 3;

pub const PARTS_RECEIVER: usize = 4;

pub const PARTS_SUBCHANNEL: usize = 5;

// Whether a key is one that a stream can have.
pub const KEY_VALID: usize = 1;

// A day count.
pub const DAY_COUNT: usize = 1;

// A date.
pub const DATE_YEAR: usize = 1;

pub const DATE_DAY: usize = 2;

// A row report.
pub const TICKED: usize = 1;

pub const MISSING: usize = 2;

pub const LOWEST: usize = 3;

// Whether a slice is a sheet.
pub const IS_SHEET: usize = 1;

// The stream of a row.
pub const ROW_KEY: usize = 1;

pub const ROW_FIRST: usize = 2;

// The state of a desk.
pub const DESK_ROW: usize = 1;

pub const DESK_STALE: usize = 2;

// What a desk has not saved.
pub const UNSAVED_TICKS: usize = 1;

pub const UNSAVED_UNTICKS: usize = 2;

// The answer of receive: how many records, where the walk stopped and why, and how many were ticked.
pub const RECEIVED_COUNT: usize = 1;

pub const RECEIVED_PLACE: usize = 2;

pub const RECEIVED_STOP: usize = 3;

pub const RECEIVED_SECOND: usize = 4;

pub const RECEIVED_TICKED: usize = 5;

// The first gap.
pub const GAP_NUMBER: usize = 1;

pub const GAP_ROW: usize = 2;

// The first entry of a trace that differs, and what its call answered.
pub const ENTRY: usize = 1;

pub const ENTRY_NUMBER: usize = 2;

pub const ENTRY_ROW: usize = 3;

// A season.
pub const SEASON_SHEETS: usize = 1;

pub const SEASON_TICKED: usize = 2;

pub const SEASON_MISSING: usize = 3;

pub const SEASON_PER_MILLION: usize = 4;

pub const SEASON_GAP_SHEET: usize = 5;

pub const SEASON_GAP_ROW: usize = 6;

pub const SEASON_GAP_NUMBER: usize = 7;

// A setting.
pub const SETTING_EDITION: usize = 1;

pub const SETTING_DAY: usize = 2;

pub const SETTING_FRAME: usize = 3;

// Whether a slice is a settings sheet.
pub const IS_SETTINGS: usize = 1;

// A gain multiplier.
pub const GAIN: usize = 1;

// How many samples or bytes were written; how many numbers are missing; how many records there can be.
pub const COUNT: usize = 1;

// How many bytes a refusal's text has before its zero byte.
pub const TEXT_LENGTH: usize = 1;

// A part of a record: its offset and its length.
pub const PART_OFFSET: usize = 1;

pub const PART_LENGTH: usize = 2;

// A walk or a list: how many records, the stop place, the stop number and its second number.
pub const WALK_COUNT: usize = 1;

pub const WALK_PLACE: usize = 2;

pub const WALK_STOP: usize = 3;

pub const WALK_SECOND: usize = 4;

// Read headers, both kinds.
pub const KIND: usize = 1;

pub const SIZE: usize = 2;

pub const MAJOR: usize = 3;

pub const MINOR: usize = 4;

pub const MISSION: usize = 5;

pub const FORMAT: usize = 6;

// A step: the place of the cursor after it, behind the numbers of read one.
pub const STEP_NEXT: usize = 7;

// Read headers, a telemetry record.
pub const TELEMETRY_SPACECRAFT: usize = 7;

pub const TELEMETRY_SOURCE: usize = 8;

pub const TELEMETRY_RECEIVED: usize = 9;

pub const TELEMETRY_NUMBER: usize = 10;

pub const TELEMETRY_UPLINK: usize = 11;

pub const TELEMETRY_MODE: usize = 12;

pub const TELEMETRY_STREAM: usize = 13;

pub const TELEMETRY_EQUIPMENT: usize = 14;

pub const TELEMETRY_KEY: usize = 15;

pub const TELEMETRY_DAYS: usize = 16;

pub const TELEMETRY_MILLISECONDS: usize = 17;

pub const TELEMETRY_EXTENDED: usize = 18;

// Read headers, an RSR record.
pub const RSR_SOFTWARE: usize = 7;

pub const RSR_NUMBER: usize = 8;

pub const RSR_COMPLEX: usize = 9;

pub const RSR_STATION: usize = 10;

pub const RSR_RECEIVER: usize = 11;

pub const RSR_SUBCHANNEL: usize = 12;

pub const RSR_SPACECRAFT: usize = 13;

pub const RSR_PASS: usize = 14;

pub const RSR_UPLINK: usize = 15;

pub const RSR_DOWNLINK: usize = 16;

pub const RSR_MODE: usize = 17;

pub const RSR_UPLINK_STATION: usize = 18;

pub const RSR_EXPECTED: usize = 19;

pub const RSR_BANDWIDTH: usize = 20;

pub const RSR_OVERRIDDEN: usize = 21;

pub const RSR_ATTENUATION: usize = 22;

pub const RSR_RMS: usize = 23;

pub const RSR_PEAK: usize = 24;

pub const RSR_YEAR: usize = 25;

pub const RSR_DAY: usize = 26;

pub const RSR_FREQUENCY: usize = 27;

pub const RSR_KEY: usize = 28;

pub const RSR_DAY_COUNT: usize = 29;

// A medium band record: its source, its time tag, the recorder.
pub const TAPE_FIRST: usize = 1;

pub const TAPE_SOURCE_ERROR: usize = 2;

pub const TAPE_TYPE: usize = 3;

pub const TAPE_TAPE: usize = 4;

pub const TAPE_NUMBER: usize = 5;

pub const TAPE_SPACECRAFT: usize = 6;

pub const TAPE_STATION: usize = 7;

pub const TAPE_DRA_TAPE: usize = 8;

pub const TAPE_DAY: usize = 9;

pub const TAPE_HOUR: usize = 10;

pub const TAPE_MINUTE: usize = 11;

pub const TAPE_SECOND: usize = 12;

pub const TAPE_MICROS: usize = 13;

pub const TAPE_INPUT: usize = 14;

pub const TAPE_PPS_ABSENT: usize = 15;

pub const TAPE_CLOCK_UNSYNCED: usize = 16;

pub const TAPE_RECORDER_B: usize = 17;

pub const TAPE_MICROS_ABNORMAL: usize = 18;

pub const TAPE_TRACK_SYNCED: usize = 19;

// A medium band record: how it was reduced, and how many samples it has.
pub const TAPE_PLAYBACK: usize = 1;

pub const TAPE_SAMPLING: usize = 2;

pub const TAPE_BYPASS: usize = 3;

pub const TAPE_DECIMATION: usize = 4;

pub const TAPE_PPS_TRACK: usize = 5;

pub const TAPE_TIME_TRACK: usize = 6;

pub const TAPE_CHANNEL: usize = 7;

pub const TAPE_BLOCK: usize = 8;

pub const TAPE_REDUCED_DAY: usize = 9;

pub const TAPE_REDUCED_SECOND: usize = 10;

pub const TAPE_OVERFLOW: usize = 11;

pub const TAPE_PPS_UNSYNCED: usize = 12;

pub const TAPE_BIT_SLIP: usize = 13;

pub const TAPE_COUNTER: usize = 14;

pub const TAPE_COUNT: usize = 15;
