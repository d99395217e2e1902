// The lines of the calls on the ledger sheet that are also lent a list: missing numbers, and receive.
use call_script_text::{Frame, Op, crc, line};
use ledger_answers::{ledgers, streams};

// The longest list, and what it holds before the call.
const MOST_NUMBERS: usize = 1100;

const FILL: u32 = 7;

// How many numbers an accepted answer has.
const MISSING: usize = 2;

const RECEIVED: usize = 6;

// Makes a call on the sheet, which is the first n bytes of its buffer. The line ends with the crcs of the whole list and of the whole sheet. No words
// if the list would be too long.
pub(crate) fn line(
    f: Frame,
    a: &[u8],
    room: &mut [u8],
    n: usize,
    out: &mut [u8],
    at: usize,
) -> usize {
    let z = f.z as usize;
    if MOST_NUMBERS < z {
        return at;
    }
    if room.len() < n {
        return at;
    }
    let s = &mut room[..n];
    let mut numbers = [FILL; MOST_NUMBERS];
    let list = &mut numbers[..z];
    let end = call(f, a, s, list, out, at);
    let listed = line::number(out, end, u64::from(crc::crc_of_int32s(list)));
    line::number(out, listed, u64::from(crc::crc(s)))
}

fn call(f: Frame, a: &[u8], s: &mut [u8], list: &mut [u32], out: &mut [u8], at: usize) -> usize {
    if f.op == Op::MissingNumbers {
        let found = ledger_missing::missing_numbers(s, f.x, list);
        return line::told(out, at, &ledgers::number(found), MISSING);
    }
    let found = ledger_receive::receive(s, f.x, a, list);
    line::told(out, at, &streams::received(found), RECEIVED)
}
