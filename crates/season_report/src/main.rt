// Writes the season's gap report as a table. Its arguments name the files of the ledger sheets, in order. It converts old sheets first.
// `ledger_season` makes the report and `season_report_text` the text; this file has the calls of the system.

#![tactic(auto)]

mod files;

ghost use Rattle.std.specs.Prelude.{◌*◌, true, ◌≡◌, length, IfSome};
ghost use Rattle.ledger_sheet.specs.Sheet.{sheet_size};
ghost use Rattle.ledger_season.specs.Report.{most_sheets};
ghost use Rattle.ledger_season.specs.Season.{right_to};
ghost use Rattle.season_report_text.specs.Page.{name_size};
ghost use Rattle.season_report_text.specs.inner.Room.{Named, Ready};
ghost use Rattle.season_report.specs.Loaded.{room_size, LoadsAll};
ghost use Rattle.season_report.specs.Told.{Tells};

use ledger_sheet as sheet;
use refusals::Refusal;
use season_report_text::Files;

const MOST_NAMES: usize = ledger_season::MOST_SHEETS * season_report_text::NAME;

const MOST_BYTES: usize = ledger_season::MOST_SHEETS * sheet::SHEET;

// The room that a file is read into: longer than any sheet.
const ROOM: usize = sheet::SHEET + 1;

const ALL_ROOMS: usize = ledger_season::MOST_SHEETS * ROOM;

const USAGE: &str = "\
usage: season_report [SHEET ..]\n\
The gap report of a season over its ledger sheets, 16 at most, files of 6968 bytes each: a line for each sheet, their total,\n\
and the first gap. A sheet of the old layout, 6776 bytes, is converted first. No stream may stand in two of the sheets.\n";

// The sheets that are loaded, and how many bytes were read of each file. (Public because the prover needs it.)
#[derive(Clone, Copy)]
pub struct Loaded {
    pub files: Files,
    pub got: [usize; ledger_season::MOST_SHEETS],
}

// Loads the sheets that the arguments name, with their names, unless a file is no sheet. Each file is read into a room of its own.
fn load_all(
    rt: &HostRuntime,
    names: &mut [u8],
    rooms: &mut [u8],
    sheets: &mut [u8],
    count: usize,
) -> Option<Loaded>
    requires { (length names.old ≡ name_size * most_sheets) × (length rooms.old ≡ room_size * most_sheets)
        × (length sheets.old ≡ sheet_size * most_sheets) }
    ensures { IfSome result (λ loaded. Named names.new loaded.files × LoadsAll count rooms.new sheets.new loaded) }
{
    let mut files = Files {
        count: 0,
        sizes: [0; ledger_season::MOST_SHEETS],
        converted: [false; ledger_season::MOST_SHEETS],
    };
    let mut got = [0usize; ledger_season::MOST_SHEETS];
    // By index, since each turn takes the slot of its argument in three buffers and two arrays.
    for i in 0..ledger_season::MOST_SHEETS {
        if count <= i {
            return Some(Loaded { files, got });
        }
        let b = season_report_text::NAME * i;
        let f = b + season_report_text::NAME;
        let c = ROOM * i;
        let d = c + ROOM;
        let a = sheet::SHEET * i;
        let e = a + sheet::SHEET;
        let file = files::load(
            rt,
            i + 1,
            &mut names[b..f],
            &mut rooms[c..d],
            &mut sheets[a..e],
        )?;
        let taken = file.taken;
        files.count = i + 1;
        files.sizes[i] = file.size;
        files.converted[i] = taken.converted;
        got[i] = taken.got;
    }
    Some(Loaded { files, got })
}

// Writes the page of the season's report into `out`, and gives the index behind it. The files are sheets and not too many, so it can only be refused for
// a key in two sheets.
fn lay_out(out: &mut [u8], names: &[u8], sheets: &[u8], files: Files) -> Result<usize, Refusal>
    requires { Ready out.old names.now sheets.now files × (right_to sheets.now files.count ≡ true) }
    ensures { Tells names.now sheets.now files out.old out.new result }
{
    let report = ledger_season::season(sheets)?;
    Ok(season_report_text::lay_out(out, names, sheets, files, report))
}

// Writes the page, or says why there is none.
fn tell(rt: &HostRuntime, names: &[u8], sheets: &[u8], files: Files)
    requires { Named names.now files × (length sheets.now ≡ sheet_size * files.count) × (right_to sheets.now files.count ≡ true) }
{
    let mut page = season_report_text::room();
    match lay_out(&mut page, names, sheets, files) {
        Ok(end) => {
            let _ = streaming::write_out(rt, &page[..end]);
        }
        Err(_) => failures::say(rt, b"a stream stands in two of the sheets (41)\n"),
    }
}

// Fixed arrays, since a program's buffers have a fixed size, on the stack, and a season has at most 16 sheets.
fn report(rt: &HostRuntime, count: usize) {
    let mut names = [0u8; MOST_NAMES];
    let mut rooms = [0u8; ALL_ROOMS];
    let mut sheets = [0u8; MOST_BYTES];
    let Some(loaded) = load_all(rt, &mut names, &mut rooms, &mut sheets, count) else {
        return;
    };
    let files = loaded.files;
    let n = sheet::SHEET * files.count;
    tell(rt, &names, &sheets[..n], files);
}

fn main(rt: HostRuntime) {
    let rt = &rt;
    let count = arguments::count(rt);
    if count < 1 {
        return;
    }
    if let Some(asked) = arguments::first_option(rt, count) {
        arguments::tell_usage(rt, asked, USAGE);
        return;
    }
    if ledger_season::MOST_SHEETS < count - 1 {
        failures::say(rt, b"more than 16 sheets (42)\n");
        return;
    }
    report(rt, count - 1);
}
