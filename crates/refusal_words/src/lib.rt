// Refusals in words, for people: a text for each number of the refusal table, and one for every other number.

#![tactic(auto)]

mod constants;

ghost use Rattle.std.specs.Prelude.{◌≡◌};
ghost use Rattle.refusal_words.specs.Texts.{text_of};
ghost use Rattle.refusal_words.specs.Written.{words_of, write_text};

use constants::{NUMBERS, TEXTS, UNKNOWN};
use refusals::Refusal;

// A slice of so many bytes has room for every text and its zero byte.
pub const MOST_BYTES: usize = 200;

// The text of a number; of one that no refusal has, that it has none.
pub fn text(number: u32) -> &'static [u8]
    ensures { result.now ≡ text_of number }
{
    let i = number as usize;
    if i < NUMBERS {
        return TEXTS[i];
    }
    UNKNOWN
}

// Writes the text of a number and a zero byte at the start of the slice; the rest of it stays, and all of it where it is too short.
pub fn write(number: u32, out: &mut [u8]) -> Result<usize, Refusal>
    ensures { (words_of result, out.new) ≡ write_text number out.old }
{
    let text = text(number);
    let size = text.len();
    if out.len() <= size {
        return Err(Refusal::TextSpace);
    }
    out[..size].copy_from_slice(text);
    out[size] = 0;
    Ok(size)
}
