// Replays a night's calls from a trace.
ghost use Rattle.std.specs.Prelude.{◌≡◌};
ghost use Rattle.ledger_replay.specs.Replay.{replay_on, replay_on_sheet};
ghost use Rattle.answers.specs.Numbers.{with_none};
ghost use Rattle.host.specs.Exported.{exported_as};

use crate::write;
use ledger_answers::replays;

// Makes the slice a fresh sheet and replays the trace over it.
#[unsafe(no_mangle)]
pub extern "C" fn hernganow_replay(trace: &[u8], sheet: &mut [u8], answer: &mut [u8]) -> u32
    ensures { (result, answer.new, sheet.new)
        ≡ exported_as (with_none 4) (replay_on trace.now) answer.old sheet.old }
{
    if answer.len() != answers::ANSWER {
        return write::unwritten();
    }
    let found = ledger_replay::replay(trace, sheet);
    write::write_few(answer, replays::replayed(found))
}

// Replays the trace over the sheet as it is.
#[unsafe(no_mangle)]
pub extern "C" fn hernganow_replay_on(trace: &[u8], sheet: &mut [u8], answer: &mut [u8]) -> u32
    ensures { (result, answer.new, sheet.new)
        ≡ exported_as (with_none 4) (replay_on_sheet trace.now) answer.old sheet.old }
{
    if answer.len() != answers::ANSWER {
        return write::unwritten();
    }
    let found = ledger_replay::replay_on(trace, sheet);
    write::write_few(answer, replays::replayed(found))
}
