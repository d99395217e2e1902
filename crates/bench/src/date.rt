// The date of a day count.
ghost use Rattle.std.specs.Prelude.{◌≡◌};
ghost use Rattle.dates.specs.Calendar.{date_of};
ghost use Rattle.bench.specs.inner.Digest.{date_number};

const THOUSAND: u64 = 1000;

// 1,000 times the year, plus the day; or the refusal's number.
#[unsafe(no_mangle)]
pub extern "C" fn bench_date_of(count: u32) -> u64
    ensures { result ≡ date_number (date_of count) }
{
    let found = dates::date_of(count);
    match found {
        Ok(date) => THOUSAND * date.year as u64 + date.day as u64,
        Err(why) => refusals::number(why) as u64,
    }
}
