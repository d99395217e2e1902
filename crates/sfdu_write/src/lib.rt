// Write one: makes a record from its kind, its primary value, and the bytes of its secondary and data values. It tests no field in them.

#![tactic(auto)]

ghost use Rattle.std.specs.Prelude.{◌≡◌, ◌+◌, ◌≤◌, length};
ghost use Rattle.octets.specs.Octets.{put};
ghost use Rattle.sfdu.specs.Nesting.{kind_number, label_size, primary_at, secondary_value_at, data_value_at, block_label_size, secondary_length, most_data};
ghost use Rattle.sfdu_write.specs.Write.{words_of, write_one, is_input, record_bytes, head_bytes, label_bytes, primary_block, block};

use octets::numbers;
use refusals::Refusal;
use sfdu::{Kind, Primary, nesting};

// Writes a record at the start of `out` and answers its length in bytes. The rest of `out` is unchanged. A refusal leaves all of `out` unchanged.
// A number, since the contract refuses the number of a kind that is none.
pub fn write_one(
    kind: u32,
    primary: Primary,
    secondary: &[u8],
    value: &[u8],
    out: &mut [u8],
) -> Result<usize, Refusal>
    ensures { (words_of result, out.new) ≡ write_one kind primary secondary.now value.now out.old }
{
    let Ok(kind) = Kind::try_from(kind) else {
        return Err(Refusal::WriterInput);
    };
    write_kind(kind, primary, secondary, value, out)
}

// The same for a kind.
fn write_kind(
    kind: Kind,
    primary: Primary,
    secondary: &[u8],
    value: &[u8],
    out: &mut [u8],
) -> Result<usize, Refusal>
    ensures { (words_of result, out.new) ≡ write_one (kind_number kind) primary secondary.now value.now out.old }
{
    if !is_input(kind, secondary, value) {
        return Err(Refusal::WriterInput);
    }
    let size = nesting::data_value_at(kind) + value.len();
    if out.len() < size {
        return Err(Refusal::WriterSpace);
    }
    write_record(kind, primary, secondary, value, out);
    Ok(size)
}

// Whether the kind has secondary values of this length, and the data is not too long.
fn is_input(kind: Kind, secondary: &[u8], value: &[u8]) -> bool
    ensures { result ≡ is_input kind secondary.now value.now }
{
    (secondary.len() == nesting::secondary_length(kind)) & (value.len() <= nesting::MOST_DATA)
}

fn write_record(kind: Kind, primary: Primary, secondary: &[u8], value: &[u8], out: &mut [u8])
    requires { (length secondary.now ≡ secondary_length kind) × (length value.now ≤ most_data)
        × (data_value_at kind + length value.now ≤ length out.old) }
    ensures { out.new ≡ put out.old 0 (record_bytes kind primary secondary.now value.now) }
{
    let at = nesting::data_value_at(kind);
    write_head(kind, primary, at + value.len(), out);
    octets::copy_in(secondary, out, nesting::SECONDARY_VALUE_AT);
    write_block(
        out,
        nesting::data_at(kind),
        nesting::DATA_TYPE,
        value.len() as u64,
    );
    octets::copy_in(value, out, at);
}

// Writes all that comes before the secondary value of a record of `size` bytes.
fn write_head(kind: Kind, primary: Primary, size: usize, out: &mut [u8])
    requires { (label_size ≤ size) × (secondary_value_at ≤ length out.old) }
    ensures { out.new ≡ put out.old 0 (head_bytes kind primary size) }
{
    write_label(kind, size, out);
    write_block(
        out,
        nesting::AGGREGATION_AT,
        nesting::AGGREGATION_TYPE,
        nesting::aggregation_length(kind),
    );
    write_primary(primary, out);
    write_block(
        out,
        nesting::SECONDARY_AT,
        nesting::secondary_type(kind),
        nesting::secondary_length(kind) as u64,
    );
}

fn write_label(kind: Kind, size: usize, out: &mut [u8])
    requires { (label_size ≤ size) × (label_size ≤ length out.old) }
    ensures { out.new ≡ put out.old 0 (label_bytes kind size) }
{
    octets::copy_in(&nesting::AUTHORITY, out, nesting::AUTHORITY_AT);
    octets::copy_in(&nesting::VERSION_CLASS, out, nesting::VERSION_CLASS_AT);
    octets::copy_in(&nesting::kind_tag(kind), out, nesting::KIND_AT);
    numbers::write_be(
        out,
        nesting::LENGTH_AT,
        nesting::LENGTH,
        (size - nesting::LABEL) as u64,
    );
}

// Writes the primary block: its label and its value.
fn write_primary(p: Primary, out: &mut [u8])
    requires { secondary_value_at ≤ length out.old }
    ensures { out.new ≡ put out.old primary_at (primary_block p) }
{
    write_block(
        out,
        nesting::PRIMARY_AT,
        nesting::PRIMARY_TYPE,
        nesting::PRIMARY_LENGTH,
    );
    out[nesting::PRIMARY_VALUE_AT] = p.major;
    out[nesting::PRIMARY_VALUE_AT + 1] = p.minor;
    out[nesting::PRIMARY_VALUE_AT + 2] = p.mission;
    out[nesting::PRIMARY_VALUE_AT + 3] = p.format;
}

// Writes the label of a block: its type and its length.
fn write_block(out: &mut [u8], at: usize, class: u64, size: u64)
    requires { at + block_label_size ≤ length out.old }
    ensures { out.new ≡ put out.old at (block class size) }
{
    numbers::write_be(out, at, nesting::WORD, class);
    numbers::write_be(out, at + nesting::WORD, nesting::WORD, size);
}
