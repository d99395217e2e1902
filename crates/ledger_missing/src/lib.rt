// The missing list of a row: puts the numbers of the records to order into a lent list.

#![tactic(auto)]

ghost use Rattle.std.specs.Prelude.{◌≡◌, false, ◌+◌, ◌-◌, ◌*◌, ◌≤◌, ◌<◌, min, length};
ghost use Rattle.std.proofs.lemmas.List.Edits.{sets};
ghost use Rattle.ledger_model.specs.Positions.{row_length, position_number};
ghost use Rattle.ledger_model.specs.Book.{place, is_free};
ghost use Rattle.ledger_sheet.specs.Sheet.{row_size};
ghost use Rattle.ledger_layout.specs.Layout.{book_of};
ghost use Rattle.ledger_layout.specs.inner.Rules.{IsSheet};
ghost use Rattle.ledger_missing.specs.Missing.{missing_words, missing_of, missing_on};
ghost use Rattle.ledger_counts.specs.inner.Blocks.{block_bits};
ghost use Rattle.ledger_counts.specs.inner.Counts.{number_at_position};
ghost use Rattle.ledger_missing.specs.inner.Gaps.{gaps_in, numbers_at, Stored, listed};

use ledger_counts as counts;
use ledger_judged::verdicts;
use ledger_sheet as sheet;
use ledger_sheet::right;
use refusals::Refusal;

// The unticked positions below `end` in block k of the row at offset a. Bit i is position 64 k + i.
fn unticked_block(s: &[u8], a: usize, k: usize, end: usize) -> u64
    requires { (a + row_size ≤ length s.now) × (block_bits * k < end) × (end ≤ row_length) }
    ensures { numbers_at (λ i. number_at_position s.now a (block_bits * k + i)) block_bits result
        ≡ gaps_in s.now a (block_bits * k) (min block_bits (end - block_bits * k)) }
{
    let unticked = !counts::tick_block(s, a, k);
    let left = end - counts::BLOCK_BITS * k;
    if left < counts::BLOCK_BITS {
        return unticked % (1u64 << left);
    }
    unticked
}

// For each bit i of a block that is set, puts the number at position `base` + i into the list, from index `from` on. Gives the index behind them.
fn put_block(list: &mut [u32], from: usize, key: u64, first: u32, base: usize, block: u64) -> usize
    requires { (base + block_bits ≤ row_length)
        × (from + length (numbers_at (λ i. position_number key first (base + i)) block_bits block) ≤ length list.old) }
    ensures { Stored list.old from (numbers_at (λ i. position_number key first (base + i)) block_bits block) list.new result }
{
    let mut left = block;
    let mut at = from;
    // By index, since the list is written from an index that is handed on from block to block, and no iterator of std gives the set bits of a word.
    while left != 0 {
        let i = base + u64::trailing_zeros(left) as usize;
        list[at] = ledger_model::number_at(key, first, i as u32);
        at += 1;
        left &= left - 1;
    }
    at
}

// Puts the numbers at the unticked positions below `end` of the row at offset a at the start of the list.
fn put_gaps(s: &[u8], a: usize, end: usize, list: &mut [u32])
    requires { (a + row_size ≤ length s.now) × (end ≤ row_length) × (length (gaps_in s.now a 0 end) ≤ length list.old) }
    ensures { list.new ≡ sets list.old 0 (gaps_in s.now a 0 end) }
{
    let key = right::key_at(s, a);
    let first = right::first_at(s, a);
    let mut at = 0;
    let mut k = 0;
    // By index, since each turn takes the block's number, and the index in the list at which the block before it ended.
    while counts::BLOCK_BITS * k < end {
        let block = unticked_block(s, a, k, end);
        at = put_block(list, at, key, first, counts::BLOCK_BITS * k, block);
        k += 1;
    }
}

// The missing list of a row that exists. Below the end of the ticks, all unticked positions are missing: their count is the end less the ticks.
fn list_missing(s: &[u8], row: usize, list: &mut [u32]) -> Result<u32, Refusal>
    requires { IsSheet s.now × (is_free (place (book_of s.now) row) ≡ false) }
    ensures { (missing_words result, list.new) ≡ listed (missing_of s.now row) list.old }
{
    let a = sheet::row_at(row);
    let end = counts::ticks_end(s, a);
    let count = end - counts::ticked_count(s, a) as usize;
    if list.len() < count {
        return Err(Refusal::MissingSpace);
    }
    put_gaps(s, a, end, list);
    Ok(count as u32)
}

// Lists the missing numbers of a row, in the order of their positions. The rest of the list is unchanged. Gives how many there are.
pub fn missing_numbers(s: &[u8], row: u32, list: &mut [u32]) -> Result<u32, Refusal>
    ensures { (missing_words result, list.new) ≡ missing_on row s.now list.old }
{
    verdicts::row_verdict(s, right::is_sheet(s), row)?;
    list_missing(s, row as usize, list)
}
