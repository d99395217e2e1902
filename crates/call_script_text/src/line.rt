// The words of a line. Each function writes its words into a lent slice from index `at` on, with a space behind each, and gives the index behind
// them. The slice has room for the longest line; a word that has no room is left out.
use refusals::Refusal;

const SPACE: u8 = b' ';

const MOST_DIGITS: usize = 20;

// The highest number of 64 bits that is not negative in two's complement.
const MOST_POSITIVE: u64 = 9223372036854775807;

// How many numbers a refusal has: one, or two if it has a second number.
const REFUSED: usize = 1;

const PLACED: usize = 2;

pub fn letters(out: &mut [u8], at: usize, text: &[u8]) -> usize {
    if out.len() <= at {
        return at;
    }
    let room = out.len() - at;
    if room <= text.len() {
        return at;
    }
    octets::copy_in(text, out, at);
    let end = at + text.len();
    out[end] = SPACE;
    end + 1
}

// A fixed array, since there is no heap here, and `io::decimal` is lent room for the longest number.
pub fn number(out: &mut [u8], at: usize, n: u64) -> usize {
    let mut digits = [0u8; MOST_DIGITS];
    let k = io::decimal(n, &mut digits);
    letters(out, at, &digits[..k])
}

// Writes a number in two's complement. Its digits overwrite the space behind the sign.
pub fn signed(out: &mut [u8], at: usize, n: u64) -> usize {
    if n <= MOST_POSITIVE {
        return number(out, at, n);
    }
    let sign = before(letters(out, at, b"-"));
    number(out, sign, answers::NONE - n + 1)
}

pub fn before(at: usize) -> usize {
    if at == 0 {
        return 0;
    }
    at - 1
}

// Writes a number, or the word none.
pub fn maybe(out: &mut [u8], at: usize, n: u64) -> usize {
    if n == answers::NONE {
        return letters(out, at, b"none");
    }
    number(out, at, n)
}

// Writes the numbers of a list.
pub fn numbers<T: Copy + Into<u64>>(out: &mut [u8], at: usize, list: &[T]) -> usize {
    let mut end = at;
    for n in list {
        end = number(out, end, (*n).into());
    }
    end
}

// Writes a refusal's number.
pub(crate) fn refused(out: &mut [u8], at: usize, why: Refusal) -> usize {
    number(out, at, u64::from(refusals::number(why)))
}

// How many numbers of an answer its line has: `accepted` if it is accepted. A refusal up to 12 (field range) has two numbers, any other one.
fn told_count(first: u64, accepted: usize) -> usize {
    if first == crate::ACCEPTED {
        return accepted;
    }
    if first <= u64::from(refusals::number(Refusal::FieldRange)) {
        return PLACED;
    }
    REFUSED
}

// Writes the first numbers of an answer; `accepted` of them if it is accepted.
pub fn told<const N: usize>(
    out: &mut [u8],
    at: usize,
    answer: &[u64; N],
    accepted: usize,
) -> usize {
    let Some(first) = answer.first() else {
        return at;
    };
    let n = told_count(*first, accepted);
    numbers(out, at, crate::first(answer, n))
}

// The same for an answer whose numbers from index i on can be a none, which is one word.
pub fn told_or(
    out: &mut [u8],
    at: usize,
    answer: &[u64; answers::FEW],
    accepted: usize,
    i: usize,
    word: &[u8],
) -> usize {
    if answer.get(i) != Some(&answers::NONE) {
        return told(out, at, answer, accepted);
    }
    let end = numbers(out, at, crate::first(answer, i));
    letters(out, end, word)
}
