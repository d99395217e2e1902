// Tests of labels: the record's and its blocks'.
ghost use Rattle.std.specs.Prelude.{◌&&◌, ◌≡◌, ◌+◌, ◌≤◌, leb, length};
ghost use Rattle.octets.specs.Octets.{same_at};
ghost use Rattle.sfdu.specs.Nesting.{
  tag_size,
  label_size,
  block_label_size,
  least_label_length,
  most_label_length,
  most_data,
};
ghost use Rattle.sfdu.specs.Read.{label_length};
ghost use Rattle.sfdu.specs.inner.Checked.{is_label};

use crate::{Kind, nesting};
use octets::numbers;

const WORD_VALUES: u64 = 65536;

// Whether the tag at index `at` of the label is this one.
pub(crate) fn has_tag(s: &[u8], at: usize, tag: &[u8; nesting::TAG]) -> bool
    requires { at + tag_size ≤ length s.now }
    ensures { result ≡ same_at s.now at tag.now 0 tag_size }
{
    octets::is_same(s, at, tag, 0, nesting::TAG)
}

// The length that the label states: how many bytes of the record follow the label. Said in each, since a slice with a label is all that the three
// functions take; a type for it would hold the slice alone.
pub(crate) fn label_length(s: &[u8]) -> u64
    requires { label_size ≤ length s.now }
    ensures { result ≡ label_length s.now }
{
    numbers::read_u64(s, nesting::LENGTH_AT)
}

pub(crate) fn length_in_range(after: u64, kind: Kind) -> bool
    ensures { result ≡ (leb (least_label_length kind) after && leb after (most_label_length kind)) }
{
    let least = nesting::least_label_length(kind);
    let most = least + nesting::MOST_DATA as u64;
    (least <= after) & (after <= most)
}

// Whether the block at index `at` has this type and this length. Said in each, since each call has the block at another index of the record.
pub(crate) fn is_label(s: &[u8], at: usize, class: u64, size: u64) -> bool
    requires { (at + block_label_size ≤ length s.now) × (class ≤ most_data) × (size ≤ most_data) }
    ensures { result ≡ is_label s.now at class size }
{
    numbers::read_u32(s, at) as u64 == class * WORD_VALUES + size
}
