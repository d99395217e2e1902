// Says on standard error what failed, and why in the system's words. (Proved: it is safe and ends. What it writes is tested by running the programs.)

#![tactic(auto)]

use std::fmt::Write;
use std::{fmt, io};

// How many bytes of an error's words are kept.
const MOST_WORDS: usize = 320;

// What stands between the system's words and the error's number.
const BEFORE_NUMBER: [u8; 11] = *b" (os error ";

// The words of an error, as far as there is room for them. A fixed array, since a program says why it fails where no memory is left, too.
#[derive(Drop)]
struct Words {
    bytes: [u8; MOST_WORDS],
    size: usize,
}

impl Write for Words {
    fn write_str(&mut self, s: &str) -> fmt::Result {
        for b in s.as_bytes() {
            let at = self.size;
            if at < MOST_WORDS {
                self.bytes[at] = *b;
                self.size = at + 1;
            }
        }
        Ok(())
    }
}

// Writes a line on standard error: what failed, a colon and the reason. Where standard error cannot be written, nothing can be done.
pub fn tell(rt: &HostRuntime, what: &[u8], why: io::Error) {
    let mut words = Words {
        bytes: [0; MOST_WORDS],
        size: 0,
    };
    let _ = write!(words, "{why}");
    say(rt, what);
    say(rt, b": ");
    say(rt, reason(&words.bytes, words.size));
    say(rt, b"\n");
}

// Writes bytes on standard error, if it can be written.
pub fn say(rt: &HostRuntime, bytes: &[u8]) {
    let _ = rt.stderr().write_all(bytes);
}

// The first n of the words, without the error's number. By index, since the words end at n or where the number begins, whichever comes first.
fn reason(words: &[u8], n: usize) -> &[u8] {
    for i in 0..words.len() {
        if (n <= i) | words[i..].starts_with(&BEFORE_NUMBER) {
            return &words[..i];
        }
    }
    words
}
