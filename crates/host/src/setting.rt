// Mission agreements: the settings sheet.
ghost use Rattle.std.specs.Prelude.{◌≡◌};
ghost use Rattle.settings.specs.Model.{add, ask};
ghost use Rattle.settings.specs.Sheet.{right};
ghost use Rattle.settings.specs.Layout.{on_sheet, empty_on};
ghost use Rattle.answers.specs.Numbers.{plain, flagged};
ghost use Rattle.host.specs.Exported.{exported, exported_on};

use crate::write;
use answers::setting;

// Makes the slice an empty settings sheet.
#[unsafe(no_mangle)]
pub extern "C" fn hernganow_settings_make_empty(settings: &mut [u8], answer: &mut [u8]) -> u32
    ensures { (result, answer.new, settings.new) ≡ exported_on empty_on answer.old settings.old }
{
    if answer.len() != answers::ANSWER {
        return write::unwritten();
    }
    let found = settings::make_empty(settings);
    write::write_few(answer, answers::done(found))
}

// Adds a setting.
#[unsafe(no_mangle)]
pub extern "C" fn hernganow_settings_add(
    settings: &mut [u8],
    mission: u8,
    edition: u32,
    day: u32,
    frame: u32,
    answer: &mut [u8],
) -> u32
    ensures { (result, answer.new, settings.new)
        ≡ exported_on (on_sheet (add mission edition day frame)) answer.old settings.old }
{
    if answer.len() != answers::ANSWER {
        return write::unwritten();
    }
    let found = settings::add(settings, mission, edition, day, frame);
    write::write_few(answer, answers::done(found))
}

// The setting of a mission on a day.
#[unsafe(no_mangle)]
pub extern "C" fn hernganow_settings_ask(
    settings: &[u8],
    mission: u8,
    day: u32,
    answer: &mut [u8],
) -> u32
    ensures { (result, answer.new) ≡ exported (plain (on_sheet (ask mission day) settings.now).0) answer.old }
{
    if answer.len() != answers::ANSWER {
        return write::unwritten();
    }
    let found = settings::ask(settings, mission, day);
    write::write_few(answer, setting::asked(found))
}

// Whether the slice is a settings sheet: 1 or 0.
#[unsafe(no_mangle)]
pub extern "C" fn hernganow_is_settings(settings: &[u8], answer: &mut [u8]) -> u32
    ensures { (result, answer.new) ≡ exported (flagged (right settings.now)) answer.old }
{
    if answer.len() != answers::ANSWER {
        return write::unwritten();
    }
    let found = settings::is_settings(settings);
    write::write_few(answer, setting::is_settings(found))
}
