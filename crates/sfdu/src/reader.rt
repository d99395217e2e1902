// Read one, with its tests in the order of document 01's refusal table, and the two part calls.
ghost use Rattle.std.specs.Prelude.{[], ◌∷◌, ◌++◌, ◌≡◌, ◌+◌, ◌-◌, ◌≤◌, ◌<◌, length, eqb};
ghost use Rattle.refusals.specs.Judge.{answered};
ghost use Rattle.refusals.specs.Table.{number_of};
ghost use Rattle.refusals.specs.declared.Refusal.TheVariants.{AggregationLabel, PrimaryLabel, SecondaryLabel};
ghost use Rattle.sfdu.specs.Nesting.{
  label_size,
  block_label_size,
  aggregation_at,
  primary_at,
  secondary_at,
  data_at,
  data_value_at,
  aggregation_type,
  primary_type,
  secondary_type,
  data_type,
  aggregation_length,
  primary_length,
  secondary_length,
  most_data,
};
ghost use Rattle.sfdu.specs.Read.{
  words_of,
  primary_words,
  primary_of,
  read_one,
  length_rules,
  header_rules,
  data_rules,
  record_words,
  record_length,
  block_type,
  block_length,
  type_and_length,
  secondary_part,
  secondary_start,
  data_part,
  data_start,
};
ghost use Rattle.sfdu.specs.inner.Checked.{checked};

use crate::{Fault, Kind, Primary, Record, label, nesting};
use octets::numbers;
use refusals::Refusal;

// Reads the first record of a slice; bytes after it do not matter. Each kind has its own call of `read_length`, so LLVM compiles one chain of tests
// per kind, with the kind's offsets and lengths as constants.
pub fn read_one(s: &[u8]) -> Result<Record, Fault>
    ensures { words_of result ≡ read_one s.now }
{
    if s.len() < nesting::LABEL {
        return refused(Refusal::TooShort, s.len());
    }
    if !label::has_tag(s, nesting::AUTHORITY_AT, &nesting::AUTHORITY) {
        return refused(Refusal::Authority, nesting::AUTHORITY_AT);
    }
    if !label::has_tag(s, nesting::VERSION_CLASS_AT, &nesting::VERSION_CLASS) {
        return refused(Refusal::VersionClass, nesting::VERSION_CLASS_AT);
    }
    let tag = numbers::read_u32(s, nesting::KIND_AT);
    if tag == nesting::TELEMETRY_TAG {
        return read_length(s, Kind::Telemetry);
    }
    if tag == nesting::RSR_TAG {
        return read_length(s, Kind::Rsr);
    }
    refused(Refusal::UnknownKind, nesting::KIND_AT)
}

fn refused(refusal: Refusal, at: usize) -> Result<Record, Fault>
    ensures { words_of result ≡ number_of refusal ∷ at ∷ [] }
{
    Err(Fault { refusal, at })
}

// Tests from the label's length on.
fn read_length(s: &[u8], kind: Kind) -> Result<Record, Fault>
    requires { label_size ≤ length s.now }
    ensures { words_of result ≡ answered (length_rules kind s.now ++ header_rules kind s.now
        ++ data_rules kind s.now) (record_words kind s.now) }
{
    let after = label::label_length(s);
    if !label::length_in_range(after, kind) {
        return refused(Refusal::LabelLength, nesting::LENGTH_AT);
    }
    let size = nesting::LABEL + after as usize;
    if s.len() < size {
        return refused(Refusal::Truncated, s.len());
    }
    read_blocks(s, kind, size)
}

// Tests from the aggregation's label on. The record is `size` bytes long, and all of them are lent. Said in each, since a struct of the slice, the kind
// and the length would say the same in its invariant, and each contract would speak of the slice in it.
fn read_blocks(s: &[u8], kind: Kind, size: usize) -> Result<Record, Fault>
    requires { (size ≡ record_length s.now) × (data_value_at kind ≤ size) × (size ≤ length s.now) }
    ensures { words_of result ≡ answered (header_rules kind s.now ++ data_rules kind s.now) (record_words kind s.now) }
{
    judge_aggregation(s, kind)?;
    judge_primary(s)?;
    judge_secondary(s, kind)?;
    read_data(s, kind, size)
}

// Said in each, since each function tests another part of the one slice; a struct would hold that slice, and each contract would speak of it.
fn judge_aggregation(s: &[u8], kind: Kind) -> Result<(), Fault>
    requires { data_value_at kind ≤ length s.now }
    ensures { result ≡ checked AggregationLabel (type_and_length s.now aggregation_at aggregation_type (aggregation_length kind)) }
{
    judge_label(
        s,
        nesting::AGGREGATION_AT,
        nesting::AGGREGATION_TYPE,
        nesting::aggregation_length(kind),
        Refusal::AggregationLabel,
    )
}

fn judge_primary(s: &[u8]) -> Result<(), Fault>
    requires { secondary_at ≤ length s.now }
    ensures { result ≡ checked PrimaryLabel (type_and_length s.now primary_at primary_type primary_length) }
{
    judge_label(
        s,
        nesting::PRIMARY_AT,
        nesting::PRIMARY_TYPE,
        nesting::PRIMARY_LENGTH,
        Refusal::PrimaryLabel,
    )
}

fn judge_secondary(s: &[u8], kind: Kind) -> Result<(), Fault>
    requires { data_value_at kind ≤ length s.now }
    ensures { result ≡ checked SecondaryLabel (type_and_length s.now secondary_at (secondary_type kind) (secondary_length kind)) }
{
    judge_label(
        s,
        nesting::SECONDARY_AT,
        nesting::secondary_type(kind),
        nesting::secondary_length(kind) as u64,
        Refusal::SecondaryLabel,
    )
}

// Tests the label of the block at index `at` against a type and a length. A right label takes one comparison.
fn judge_label(s: &[u8], at: usize, class: u64, size: u64, refusal: Refusal) -> Result<(), Fault>
    requires { (at + block_label_size ≤ length s.now) × (class ≤ most_data) × (size ≤ most_data) }
    ensures { result ≡ checked refusal (type_and_length s.now at class size) }
{
    if label::is_label(s, at, class, size) {
        return Ok(());
    }
    if numbers::read_u16(s, at) as u64 != class {
        return Err(Fault { refusal, at });
    }
    Err(Fault {
        refusal,
        at: at + nesting::WORD,
    })
}

fn block_length(s: &[u8], at: usize) -> u64
    requires { at + block_label_size ≤ length s.now }
    ensures value { result ≡ block_length s.now at }
    ensures upper_bound { result < 65536 }
{
    numbers::read_u16(s, at + nesting::WORD) as u64
}

// Tests the data block's label. If it is right, the answer is the record.
fn read_data(s: &[u8], kind: Kind, size: usize) -> Result<Record, Fault>
    requires { (size ≡ record_length s.now) × (data_value_at kind ≤ size) × (size ≤ length s.now) }
    ensures { words_of result ≡ answered (data_rules kind s.now) (record_words kind s.now) }
{
    if !has_data_type(s, kind) {
        return refused(Refusal::DataType, nesting::data_at(kind));
    }
    if !has_data_length(s, kind, size) {
        return refused(Refusal::DataLength, nesting::data_at(kind) + nesting::WORD);
    }
    let primary = read_primary(s);
    Ok(Record {
        kind,
        size,
        primary,
    })
}

fn read_primary(s: &[u8]) -> Primary
    requires { secondary_at ≤ length s.now }
    ensures { primary_words result ≡ primary_of s.now }
{
    Primary {
        major: s[nesting::PRIMARY_VALUE_AT],
        minor: s[nesting::PRIMARY_VALUE_AT + 1],
        mission: s[nesting::PRIMARY_VALUE_AT + 2],
        format: s[nesting::PRIMARY_VALUE_AT + 3],
    }
}

fn has_data_type(s: &[u8], kind: Kind) -> bool
    requires { data_value_at kind ≤ length s.now }
    ensures { result ≡ eqb (block_type s.now (data_at kind)) data_type }
{
    numbers::read_u16(s, nesting::data_at(kind)) as u64 == nesting::DATA_TYPE
}

fn has_data_length(s: &[u8], kind: Kind, size: usize) -> bool
    requires { (size ≡ record_length s.now) × (data_value_at kind ≤ size) × (size ≤ length s.now) }
    ensures { result ≡ eqb (block_length s.now (data_at kind)) (record_length s.now - data_value_at kind) }
{
    let rest = size - nesting::data_value_at(kind);
    block_length(s, nesting::data_at(kind)) == rest as u64
}

// The value of the secondary block: that part of the slice itself. If read one refuses, the empty part at its start.
pub fn secondary_part(s: &[u8]) -> &[u8]
    ensures { (result.now ≡ secondary_part s.now) × (result.ref_ptr.0 ≡ s.entry.ref_ptr.0)
        × (result.ref_ptr.1 ≡ s.entry.ref_ptr.1 + secondary_start s.now) }
{
    match read_one(s) {
        Ok(found) => {
            let e = nesting::data_at(found.kind);
            &s[nesting::SECONDARY_VALUE_AT..e]
        }
        Err(_) => &s[0..0],
    }
}

// The value of the data block: that part of the slice itself. If read one refuses, the empty part at its start.
pub fn data_part(s: &[u8]) -> &[u8]
    ensures { (result.now ≡ data_part s.now) × (result.ref_ptr.0 ≡ s.entry.ref_ptr.0) × (result.ref_ptr.1 ≡ s.entry.ref_ptr.1 + data_start s.now) }
{
    match read_one(s) {
        Ok(found) => {
            let a = nesting::data_value_at(found.kind);
            &s[a..found.size]
        }
        Err(_) => &s[0..0],
    }
}
