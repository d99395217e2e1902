// Unpacks the samples of a record, and packs samples.
ghost use Rattle.std.specs.Prelude.{◌≡◌};
ghost use Rattle.sfdu_samples.specs.Calls.{words_of, unpacking, packing};
ghost use Rattle.bench.specs.inner.Digest.{tallied};

use sfdu::RecordRefusal;

#[unsafe(no_mangle)]
pub extern "C" fn bench_unpack(s: &[u8], list: &mut [i32]) -> u64
    ensures value { result ≡ tallied (unpacking s.now list.old).0 }
    ensures list_after { list.new ≡ (unpacking s.now list.old).1 }
{
    tally(sfdu_samples::unpack(s, list))
}

#[unsafe(no_mangle)]
pub extern "C" fn bench_pack(size: u32, rate: u32, samples: &[i32], out: &mut [u8]) -> u64
    ensures value { result ≡ tallied (packing size rate samples.now out.old).0 }
    ensures out_after { out.new ≡ (packing size rate samples.now out.old).1 }
{
    tally(sfdu_samples::pack(size, rate, samples, out))
}

// The count, or the refusal's number. A number, since C takes it.
fn tally(answer: Result<usize, RecordRefusal>) -> u64
    ensures { result ≡ tallied (words_of answer) }
{
    match answer {
        Ok(n) => n as u64,
        Err(RecordRefusal::Fault(fault)) => {
            let why = fault.refusal;
            refusals::number(why) as u64
        }
        Err(RecordRefusal::Alone(why)) => refusals::number(why) as u64,
    }
}
