// The lines of the calls on mission settings.
use answers::setting;
use call_script_text::{Frame, Op, line};

// How many numbers an accepted answer has: of a call that gives no values, and of `ask`.
const DONE: usize = 1;

const SETTING: usize = 4;

// Makes a call on the settings. No words if the mission is no byte.
pub(crate) fn call(f: Frame, s: &mut [u8], out: &mut [u8], at: usize) -> usize {
    if f.op == Op::MakeEmpty {
        return line::told(out, at, &answers::done(settings::make_empty(s)), DONE);
    }
    let Ok(mission) = u8::try_from(f.x) else {
        return at;
    };
    if f.op == Op::Add {
        let answer = answers::done(settings::add(s, mission, f.y, f.z, f.w));
        return line::told(out, at, &answer, DONE);
    }
    line::told(
        out,
        at,
        &setting::asked(settings::ask(s, mission, f.y)),
        SETTING,
    )
}
