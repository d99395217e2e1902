// Refusals in words.
ghost use Rattle.std.specs.Prelude.{◌≡◌};
ghost use Rattle.refusal_words.specs.Written.{write_text};
ghost use Rattle.host.specs.Exported.{exported_on};

use crate::write;

// The text of a refusal's number and a zero byte, at the start of the slice.
#[unsafe(no_mangle)]
pub extern "C" fn hernganow_refusal_text(number: u32, out: &mut [u8], answer: &mut [u8]) -> u32
    ensures { (result, answer.new, out.new) ≡ exported_on (write_text number) answer.old out.old }
{
    if answer.len() != answers::ANSWER {
        return write::unwritten();
    }
    let found = refusal_words::write(number, out);
    write::write_few(answer, answers::text(found))
}
