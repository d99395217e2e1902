// The replay of a trace.
ghost use Rattle.std.specs.Prelude.{◌≡◌};
ghost use Rattle.ledger_replay.specs.Replay.{answered_words, replayed_words, replay_on, replay_on_sheet};
ghost use Rattle.bench.specs.inner.Digest.{sum_of};

use ledger_replay::Difference;
use refusals::Refusal;

#[unsafe(no_mangle)]
pub extern "C" fn bench_replay(t: &[u8], s: &mut [u8]) -> u64
    ensures { (result ≡ sum_of (replay_on t.now s.old).0) × (s.new ≡ (replay_on t.now s.old).1) }
{
    said(ledger_replay::replay(t, s))
}

#[unsafe(no_mangle)]
pub extern "C" fn bench_replay_on(t: &[u8], s: &mut [u8]) -> u64
    ensures value { result ≡ sum_of (replay_on_sheet t.now s.old).0 }
    ensures s_after { s.new ≡ (replay_on_sheet t.now s.old).1 }
{
    said(ledger_replay::replay_on(t, s))
}

// A number, since C takes it.
fn said(answer: Result<Option<Difference>, Refusal>) -> u64
    ensures { result ≡ sum_of (replayed_words answer) }
{
    match answer {
        Ok(None) => 0,
        Ok(Some(found)) => found.entry as u64 + answered(found.answer),
        Err(why) => refusals::number(why) as u64,
    }
}

// What an entry's call answered: the row or the refusal's number. A number, since C takes it.
fn answered(answer: Result<u32, Refusal>) -> u64
    ensures { result ≡ sum_of (answered_words answer) }
{
    match answer {
        Ok(row) => row as u64,
        Err(why) => refusals::number(why) as u64,
    }
}
