// Dates.
ghost use Rattle.std.specs.Prelude.{◌≡◌};
ghost use Rattle.dates.specs.Calendar.{date_of};
ghost use Rattle.answers.specs.Dates.{day_counted};
ghost use Rattle.answers.specs.Numbers.{plain};
ghost use Rattle.host.specs.Exported.{exported};

use crate::write;

// The year and the day of a day count.
#[unsafe(no_mangle)]
pub extern "C" fn hernganow_date(count: u32, answer: &mut [u8]) -> u32
    ensures { (result, answer.new) ≡ exported (plain (date_of count)) answer.old }
{
    if answer.len() != answers::ANSWER {
        return write::unwritten();
    }
    let found = dates::date_of(count);
    write::write_few(answer, answers::date(found))
}

// The day count of a year and a day of the year.
#[unsafe(no_mangle)]
pub extern "C" fn hernganow_day_count(year: u16, day: u16, answer: &mut [u8]) -> u32
    ensures { (result, answer.new) ≡ exported (day_counted year day) answer.old }
{
    if answer.len() != answers::ANSWER {
        return write::unwritten();
    }
    let found = dates::day_count(year, day);
    write::write_few(answer, answers::day_count(found))
}
