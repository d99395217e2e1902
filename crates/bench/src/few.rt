// Calls whose answers are a few numbers. Each gives the exclusive or of them.
ghost use Rattle.std.specs.Prelude.{◌≡◌};
ghost use Rattle.keys.specs.Key.{telemetry_key_call};
ghost use Rattle.settings.specs.Model.{add, ask};
ghost use Rattle.settings.specs.Layout.{on_sheet};
ghost use Rattle.sfdu_gain.specs.Gain.{gaining};
ghost use Rattle.ledger_convert.specs.Convert.{convert_on};
ghost use Rattle.ledger_season.specs.Season.{season, counts_words};
ghost use Rattle.answers.specs.Numbers.{numbers_of, plain};
ghost use Rattle.bench.specs.inner.Digest.{few_onto, counts_onto, season_onto};

use answers::{receivers, setting};
use ledger_season::SheetCounts;

pub(crate) fn onto(numbers: [u64; answers::FEW]) -> u64
    ensures { result ≡ few_onto numbers }
{
    numbers[0] ^ (numbers[1] ^ (numbers[2] ^ numbers[3]))
}

#[unsafe(no_mangle)]
pub extern "C" fn bench_telemetry_key(
    spacecraft: u32,
    source: u32,
    equipment: u32,
    stream: u32,
) -> u64
    ensures { result ≡ few_onto (numbers_of (plain (telemetry_key_call spacecraft source equipment stream))) }
{
    onto(answers::key(keys::telemetry_key(spacecraft, source, equipment, stream)))
}

#[unsafe(no_mangle)]
pub extern "C" fn bench_settings_ask(s: &[u8], mission: u8, day: u32) -> u64
    ensures { result ≡ few_onto (numbers_of (plain (on_sheet (ask mission day) s.now).0)) }
{
    onto(setting::asked(settings::ask(s, mission, day)))
}

#[unsafe(no_mangle)]
pub extern "C" fn bench_settings_add(
    s: &mut [u8],
    mission: u8,
    edition: u32,
    day: u32,
    frame: u32,
) -> u64
    ensures value { result ≡ few_onto (numbers_of (plain (on_sheet (add mission edition day frame) s.old).0)) }
    ensures s_after { s.new ≡ (on_sheet (add mission edition day frame) s.old).1 }
{
    onto(answers::done(settings::add(s, mission, edition, day, frame)))
}

#[unsafe(no_mangle)]
pub extern "C" fn bench_gain(s: &[u8], edition: u32) -> u64
    ensures { result ≡ few_onto (numbers_of (gaining edition s.now)) }
{
    onto(receivers::gain(sfdu_gain::gain(s, edition)))
}

#[unsafe(no_mangle)]
pub extern "C" fn bench_convert(old: &[u8], new: &mut [u8]) -> u64
    ensures value { result ≡ few_onto (numbers_of (plain (convert_on old.now new.old).0)) }
    ensures after { new.new ≡ (convert_on old.now new.old).1 }
{
    onto(answers::done(ledger_convert::convert(old, new)))
}

// The exclusive or of the season's number of sheets and its counts in all, which are zeros if it is refused.
#[unsafe(no_mangle)]
pub extern "C" fn bench_season(s: &[u8]) -> u64
    ensures { result ≡ season_onto (season s.now) }
{
    match ledger_season::season(s) {
        Ok(report) => report.count as u64 ^ counts_onto(report.total),
        Err(_) => crate::NOTHING,
    }
}

fn counts_onto(c: SheetCounts) -> u64
    ensures { result ≡ counts_onto (counts_words c) }
{
    c.ticked as u64 ^ (c.missing as u64 ^ c.per_million as u64)
}
