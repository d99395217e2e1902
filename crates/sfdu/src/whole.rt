// The length of the record at the start of a slice. It is all that a walk needs, and a walk asks it of each record, so it is quick: a tag and a
// block's label are each compared as one number, and each kind has its own tests with constant offsets and lengths.
ghost use Rattle.std.specs.Prelude.{cond, Some, None, ◌++◌, ◌≡◌, ◌+◌, ◌-◌, ◌≤◌, length};
ghost use Rattle.refusals.specs.Judge.{none_applies};
ghost use Rattle.sfdu.specs.Nesting.{
  label_size,
  aggregation_at,
  secondary_at,
  data_at,
  data_value_at,
  aggregation_type,
  secondary_type,
  data_type,
  aggregation_length,
  secondary_length,
  most_data,
};
ghost use Rattle.sfdu.specs.Read.{record_length, length_rules, header_rules, data_rules};
ghost use Rattle.sfdu.specs.inner.Checked.{is_label, whole_size};

use crate::{Kind, label, nesting};
use octets::numbers;

// The length of the record, if read one accepts it. Twice, since a walk asks it of each record: read one takes 10 nanoseconds for a record, and this
// 5.
pub fn whole_size(s: &[u8]) -> Option<usize>
    ensures { result ≡ whole_size s.now }
{
    if s.len() < nesting::LABEL {
        return None;
    }
    if !label::has_tag(s, nesting::AUTHORITY_AT, &nesting::AUTHORITY) {
        return None;
    }
    if !label::has_tag(s, nesting::VERSION_CLASS_AT, &nesting::VERSION_CLASS) {
        return None;
    }
    let tag = numbers::read_u32(s, nesting::KIND_AT);
    if tag == nesting::TELEMETRY_TAG {
        return size_as(s, Kind::Telemetry);
    }
    if tag == nesting::RSR_TAG {
        return size_as(s, Kind::Rsr);
    }
    None
}

fn size_as(s: &[u8], kind: Kind) -> Option<usize>
    requires { label_size ≤ length s.now }
    ensures { result ≡ cond (none_applies (length_rules kind s.now
        ++ header_rules kind s.now ++ data_rules kind s.now)) (Some (record_length s.now)) None }
{
    let after = label::label_length(s);
    if !label::length_in_range(after, kind) {
        return None;
    }
    let size = nesting::LABEL + after as usize;
    if s.len() < size {
        return None;
    }
    if has_blocks(s, kind, size) {
        return Some(size);
    }
    None
}

// Whether each block has the right label. The record is `size` bytes long, and all of them are lent.
fn has_blocks(s: &[u8], kind: Kind, size: usize) -> bool
    requires { (size ≡ record_length s.now) × (data_value_at kind ≤ size) × (size ≤ data_value_at kind + most_data) × (size ≤ length s.now) }
    ensures { result ≡ none_applies (header_rules kind s.now ++ data_rules kind s.now) }
{
    let aggregation = is_aggregation(s, kind);
    let primary = label::is_label(
        s,
        nesting::PRIMARY_AT,
        nesting::PRIMARY_TYPE,
        nesting::PRIMARY_LENGTH,
    );
    let secondary = is_secondary(s, kind);
    let data = is_data(s, kind, size);
    aggregation & (primary & (secondary & data))
}

fn is_aggregation(s: &[u8], kind: Kind) -> bool
    requires { data_value_at kind ≤ length s.now }
    ensures { result ≡ is_label s.now aggregation_at aggregation_type (aggregation_length kind) }
{
    label::is_label(
        s,
        nesting::AGGREGATION_AT,
        nesting::AGGREGATION_TYPE,
        nesting::aggregation_length(kind),
    )
}

fn is_secondary(s: &[u8], kind: Kind) -> bool
    requires { data_value_at kind ≤ length s.now }
    ensures { result ≡ is_label s.now secondary_at (secondary_type kind) (secondary_length kind) }
{
    label::is_label(
        s,
        nesting::SECONDARY_AT,
        nesting::secondary_type(kind),
        nesting::secondary_length(kind) as u64,
    )
}

fn is_data(s: &[u8], kind: Kind, size: usize) -> bool
    requires { (size ≡ record_length s.now) × (data_value_at kind ≤ size) × (size ≤ data_value_at kind + most_data) × (size ≤ length s.now) }
    ensures { result ≡ is_label s.now (data_at kind) data_type (record_length s.now - data_value_at kind) }
{
    let rest = size - nesting::data_value_at(kind);
    label::is_label(s, nesting::data_at(kind), nesting::DATA_TYPE, rest as u64)
}
