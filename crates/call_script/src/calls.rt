// Makes the call of a frame, by its op. The line of a bad frame has no words.
use crate::{Lengths, receives, seasons, setting, sheets};
use call_script_text::{Frame, Op, crc, line};

pub(crate) fn call(
    f: Frame,
    a: &[u8],
    b: &[u8],
    sheet: &mut [u8],
    settings: &mut [u8],
    kept: Lengths,
    out: &mut [u8],
    at: usize,
) -> usize {
    let n = kept.sheet;
    match f.op {
        Op::NewSheet => sheets::new_sheet(a, sheet, out, at),
        Op::Convert => sheets::converted(a, sheet, f.z as usize, out, at),
        Op::Season => seasons::season(a, out, at),
        Op::MissingNumbers | Op::Receive => receives::line(f, a, sheet, n, out, at),
        Op::Replay | Op::ReplayOn => sheets::replayed(f.op, a, sheet, n, out, at),
        Op::Fresh
        | Op::Enrol
        | Op::Find
        | Op::Open
        | Op::Tick
        | Op::Untick
        | Op::Save
        | Op::Drop
        | Op::RowReport
        | Op::FirstGap
        | Op::Strike
        | Op::Row
        | Op::Desk => on_kept(f, sheet, n, out, at),
        Op::NewSettings => sheets::new_sheet(a, settings, out, at),
        Op::MakeEmpty | Op::Add | Op::Ask => on_kept(f, settings, kept.settings, out, at),
        _ => call_script_text::on_bytes(f, a, b, out, at),
    }
}

// Makes a call on the sheet or on the settings, which are the first n bytes of their buffer. The line ends with the crc of all of them after the call.
fn on_kept(f: Frame, room: &mut [u8], n: usize, out: &mut [u8], at: usize) -> usize {
    if room.len() < n {
        return at;
    }
    let s = &mut room[..n];
    let end = match f.op {
        Op::MakeEmpty | Op::Add | Op::Ask => setting::call(f, s, out, at),
        _ => sheets::call(f, s, out, at),
    };
    if end == at {
        return at;
    }
    line::number(out, end, u64::from(crc::crc(s)))
}
