// The season.
ghost use Rattle.std.specs.Prelude.{◌≡◌};
ghost use Rattle.ledger_season.specs.Season.{season};
ghost use Rattle.answers.specs.Numbers.{with_none};
ghost use Rattle.ledger_answers.specs.Seasons.{in_all_count};
ghost use Rattle.host.specs.Exported.{exported};
ghost use Rattle.host.specs.Seasons.{in_all_of};

use crate::write;
use ledger_answers::seasons;

// Reports on the season whose sheets stand one after another: its numbers in all.
#[unsafe(no_mangle)]
pub extern "C" fn hernganow_season(sheets: &[u8], answer: &mut [u8]) -> u32
    ensures { (result, answer.new) ≡ exported (with_none in_all_count (in_all_of (season sheets.now))) answer.old }
{
    if answer.len() != answers::ANSWER {
        return write::unwritten();
    }
    let found = ledger_season::season(sheets);
    write::write(answer, seasons::in_all(found))
}
