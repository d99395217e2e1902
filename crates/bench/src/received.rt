// Receives a stream at a desk.
ghost use Rattle.std.specs.Prelude.{◌≡◌};
ghost use Rattle.ledger_receive.specs.Receive.{receive_on};
ghost use Rattle.answers.specs.Numbers.{numbers_of, plain};
ghost use Rattle.bench.specs.inner.Digest.{xor_of};

use ledger_answers::streams;

#[unsafe(no_mangle)]
pub extern "C" fn bench_receive(s: &mut [u8], desk: u32, stream: &[u8], list: &mut [u32]) -> u64
    ensures { (result ≡ xor_of (numbers_of (plain (receive_on desk stream.now list.old s.old).0)))
        × (list.new ≡ (receive_on desk stream.now list.old s.old).1)
        × (s.new ≡ (receive_on desk stream.now list.old s.old).2) }
{
    crate::xor_of(streams::received(ledger_receive::receive(s, desk, stream, list)))
}
