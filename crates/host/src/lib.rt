// The library's calls for C programs (document 02, Req 06; include/hernganow.h declares them). A number is passed as it is, a slice as a pointer and
// a length, the answer's slice last. Each answers as the library's call does, and returns the refusal's number or 0.

#![tactic(auto)]

pub mod date;
pub mod receivers;
pub mod records;
pub mod replays;
pub mod seasons;
pub mod setting;
pub mod sheets;
pub mod stream_keys;
pub mod tapes;
pub mod walks;
pub mod words;
pub mod write;
