// Writes an answer's numbers into the slice that a C program lends for them. The exported calls use these functions.
ghost use Rattle.std.specs.Prelude.{◌≡◌, ◌-◌, ◌*◌, ◌<◌, ◌≤◌, ◌^◌, ◌++◌, length, get_or, replicate};
ghost use Rattle.octets.specs.Octets.{put};
ghost use Rattle.refusals.specs.Table.{number_of};
ghost use Rattle.refusals.specs.declared.Refusal.TheVariants.{AnswerLength};
ghost use Rattle.answers.specs.Numbers.{number_count};
ghost use Rattle.answers.specs.inner.Numbers.{few_count};
ghost use Rattle.host.specs.Answer.{answer_size, number_size, answer_bytes};
ghost use Rattle.host.specs.inner.Written.{Written};

use refusals::Refusal;

// How many bytes a few numbers have.
const FEW_BYTES: usize = answers::NUMBER * answers::FEW;

// What a call returns if the answer's slice does not have 256 bytes. A number, since C takes it.
pub fn unwritten() -> u32
    ensures { result ≡ number_of AnswerLength }
{
    refusals::number(Refusal::AnswerLength)
}

// Writes all the numbers of an answer, and returns the first.
pub fn write(answer: &mut [u8], numbers: [u64; answers::NUMBERS]) -> u32
    requires { (length answer.old ≡ answer_size) × (get_or numbers 0 0 < 2 ^ 32) }
    ensures { Written result answer.new numbers }
{
    write_numbers(answer, &numbers);
    numbers[0] as u32
}

// Writes a few numbers of an answer and zeros behind them, and returns the first.
pub fn write_few(answer: &mut [u8], numbers: [u64; answers::FEW]) -> u32
    requires { (length answer.old ≡ answer_size) × (get_or numbers 0 0 < 2 ^ 32) }
    ensures { Written result answer.new (numbers ++ replicate (number_count - few_count) 0) }
{
    write_numbers(answer, &numbers);
    octets::clear(answer, FEW_BYTES, answers::ANSWER - FEW_BYTES);
    numbers[0] as u32
}

// Writes numbers from the slice's start on.
fn write_numbers(answer: &mut [u8], numbers: &[u64])
    requires { number_size * length numbers.now ≤ length answer.old }
    ensures { answer.new ≡ put answer.old 0 (answer_bytes numbers.now) }
{
    for (i, n) in numbers.iter().enumerate() {
        octets::numbers::write_be(answer, answers::NUMBER * i, answers::NUMBER, *n);
    }
}
