// The numbers of an answer, for crates that export, print or time it (document 02, Req 06): the refusal's number, or 0 and the answer's numbers in
// the order of the papers, then zeros. Most answers have a few numbers; these are given without the zeros.

#![tactic(auto)]

pub mod places;
pub mod receivers;
pub mod record_parts;
pub mod records;
pub mod setting;
pub mod streams;
pub mod tapes;

ghost use Rattle.std.specs.Prelude.{cond, [], ◌∷◌, ◌++◌, ◌-◌, ◌≡◌, replicate};
ghost use Rattle.refusals.specs.Words.{answer_words, no_words};
ghost use Rattle.refusals.specs.Table.{number_of};
ghost use Rattle.sfdu.specs.Read.{fault_words, refusal_words};
ghost use Rattle.dates.specs.Answers as Dates;
ghost use Rattle.keys.specs.Words as Keys;
ghost use Rattle.refusal_words.specs.Written as Texts;
ghost use Rattle.answers.specs.Numbers.{number_count, plain, counted, flagged};
ghost use Rattle.answers.specs.inner.Dates.{count_words};
ghost use Rattle.answers.specs.inner.Numbers.{few_count, Few, Numbers};

use dates::Date;
use keys::KeyParts;
use refusals::Refusal;
use sfdu::{Fault, Kind, RecordRefusal};

// How many numbers an answer has, how many bytes each number has, and how many bytes an answer has.
pub const NUMBERS: usize = 32;

pub const NUMBER: usize = 8;

pub const ANSWER: usize = NUMBER * NUMBERS;

// The most numbers that an answer has, except those of read headers and the season.
pub const FEW: usize = 4;

// Each number of a none: all its bits are ones.
pub const NONE: u64 = 18446744073709551615;

// A refusal without a second number.
pub fn refused(why: Refusal) -> [u64; FEW]
    ensures { Few result (plain (number_of why ∷ [])) }
{
    let mut numbers = [0u64; FEW];
    numbers[places::REFUSAL] = refusals::number(why) as u64;
    numbers
}

// The answer of a call that gives no values. Only the refusal's number depends on it, so LLVM keeps the zeros behind it as constants.
pub fn done(answer: Result<(), Refusal>) -> [u64; FEW]
    ensures { Few result (plain (answer_words no_words answer)) }
{
    let mut numbers = [0u64; FEW];
    if let Err(why) = answer {
        numbers[places::REFUSAL] = refusals::number(why) as u64;
    }
    numbers
}

// 0 and one number. The caller names its place by a constant of `places`.
pub fn one(place: usize, n: u64) -> [u64; FEW]
    requires { place ≡ 1 }
    ensures { Few result (counted n) }
{
    let mut numbers = [0u64; FEW];
    numbers[place] = n;
    numbers
}

// 0 and a count.
pub fn count(n: u64) -> [u64; FEW]
    ensures { Few result (counted n) }
{
    one(places::COUNT, n)
}

// A refusal of a record, and its second number.
pub fn wrong(fault: Fault) -> [u64; FEW]
    ensures { Few result (plain (fault_words fault)) }
{
    let refusal = fault.refusal;
    let mut numbers = [0u64; FEW];
    numbers[places::REFUSAL] = refusals::number(refusal) as u64;
    numbers[places::FAULT] = fault.at as u64;
    numbers
}

// A refusal of a call that reads a record first.
pub fn refused_record(why: RecordRefusal) -> [u64; FEW]
    ensures { Few result (plain (refusal_words why)) }
{
    match why {
        RecordRefusal::Fault(fault) => wrong(fault),
        RecordRefusal::Alone(alone) => refused(alone),
    }
}

// A refusal's text: how many bytes it has.
pub fn text(answer: Result<usize, Refusal>) -> [u64; FEW]
    ensures { Few result (plain (Texts.words_of answer)) }
{
    match answer {
        Ok(n) => one(places::TEXT_LENGTH, n as u64),
        Err(why) => refused(why),
    }
}

pub fn key(answer: Result<u64, Refusal>) -> [u64; FEW]
    ensures { Few result (plain (Keys.words_of answer)) }
{
    match answer {
        Ok(key) => one(places::KEY, key),
        Err(why) => refused(why),
    }
}

// 1 for true, 0 for false.
pub fn flag(holds: bool) -> u64
    ensures { result ≡ cond holds 1 0 }
{
    if holds {
        return 1;
    }
    0
}

// Whether a key is one that a stream can have.
pub fn key_valid(holds: bool) -> [u64; FEW]
    ensures { Few result (flagged holds) }
{
    one(places::KEY_VALID, flag(holds))
}

// A day count, or a none.
pub fn day_count(answer: Option<u32>) -> [u64; FEW]
    ensures { Few result (count_words answer) }
{
    match answer {
        Some(n) => one(places::DAY_COUNT, n as u64),
        None => one(places::DAY_COUNT, NONE),
    }
}

pub fn date(answer: Result<Date, Refusal>) -> [u64; FEW]
    ensures { Few result (plain (Dates.words_of answer)) }
{
    match answer {
        Ok(date) => {
            let mut numbers = [0u64; FEW];
            numbers[places::DATE_YEAR] = date.year as u64;
            numbers[places::DATE_DAY] = date.day as u64;
            numbers
        }
        Err(why) => refused(why),
    }
}

// All the numbers of an answer that has a few: zeros stand behind them.
pub fn all(few: [u64; FEW]) -> [u64; NUMBERS]
    ensures { result ≡ few ++ replicate (number_count - few_count) 0 }
{
    let mut numbers = [0u64; NUMBERS];
    numbers[..FEW].copy_from_slice(&few);
    numbers
}

// The parts of a key: its kind and its four numbers.
pub fn parts(answer: Result<KeyParts, Refusal>) -> [u64; NUMBERS]
    ensures { Numbers result (plain (Keys.parts_words answer)) }
{
    match answer {
        Ok(
            KeyParts::Telemetry {
                spacecraft,
                source,
                equipment,
                stream,
            },
        ) => five(
            u32::from(Kind::Telemetry) as u64,
            spacecraft as u64,
            source as u64,
            equipment as u64,
            stream as u64,
        ),
        Ok(
            KeyParts::Rsr {
                spacecraft,
                station,
                receiver,
                subchannel,
            },
        ) => five(
            u32::from(Kind::Rsr) as u64,
            spacecraft as u64,
            station as u64,
            receiver as u64,
            subchannel as u64,
        ),
        Err(why) => all(refused(why)),
    }
}

// 0 and five numbers.
pub fn five(a: u64, b: u64, c: u64, d: u64, e: u64) -> [u64; NUMBERS]
    ensures { Numbers result (plain (0 ∷ a ∷ b ∷ c ∷ d ∷ e ∷ [])) }
{
    let mut numbers = [0u64; NUMBERS];
    numbers[1] = a;
    numbers[2] = b;
    numbers[3] = c;
    numbers[4] = d;
    numbers[5] = e;
    numbers
}
