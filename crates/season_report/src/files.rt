// Loads the sheet of a file.
ghost use Rattle.std.specs.Prelude.{◌≤◌, length, IfSome};
ghost use Rattle.season_report.specs.Loaded.{Loads};
ghost use Rattle.season_report.specs.inner.Places.{sheet_found, Places};

use ledger_convert::old;
use ledger_sheet::right;
use std::io::Read;

// A file's sheet: whether it was converted, and how many bytes of the file were read.
// A flag, since the bytes are counted of a converted sheet and of any other.
#[derive(Clone, Copy)]
pub struct Taken {
    pub converted: bool,
    pub got: usize,
}

// The same, and the length of the file's name.
#[derive(Clone, Copy)]
pub struct File {
    pub taken: Taken,
    pub size: usize,
}

// Reads the file that argument i names into the room, its sheet into the slot, and its name into the name's slot. If it is no sheet, says what is wrong.
pub(crate) fn load(
    rt: &HostRuntime,
    i: usize,
    name: &mut [u8],
    room: &mut [u8],
    slot: &mut [u8],
) -> Option<File>
    ensures { IfSome result (λ file. (file.size ≤ length name.old)
        × Loads room.new file.taken.got slot.old slot.new (sheet_found file.taken.converted)) }
{
    let Ok(mut opened) = arguments::open_at(rt, i, name) else {
        return None;
    };
    let size = opened.size;
    let taken = load_open(rt, &mut opened.file, &name[..size], room, slot)?;
    Some(File { taken, size })
}

// The room is longer than any sheet, so that a file that fills it is no sheet.
fn load_open<R: Read>(
    rt: &HostRuntime,
    from: &mut R,
    name: &[u8],
    room: &mut [u8],
    slot: &mut [u8],
) -> Option<Taken>
    ensures { IfSome result (λ taken. Loads room.new taken.got slot.old slot.new (sheet_found taken.converted)) }
{
    let got = match streaming::read_full(from, room) {
        Ok(got) => got,
        Err(failed) => {
            failed.failure.tell(rt, name);
            return None;
        }
    };
    let file = &room[..got];
    let Some(converted) = place(file, slot) else {
        failures::say(rt, name);
        failures::say(rt, b": not a ledger sheet (20)\n");
        return None;
    };
    Some(Taken { converted, got })
}

// Puts a sheet into the slot. Converts it if it has the length of an old sheet. Gives whether it did so; none if the file is no sheet.
fn place(file: &[u8], slot: &mut [u8]) -> Option<bool>
    ensures { Places file.now slot.old slot.new result }
{
    if file.len() == old::SHEET {
        return match ledger_convert::convert(file, slot) {
            Ok(()) => Some(true),
            Err(_) => None,
        };
    }
    if file.len() != slot.len() {
        return None;
    }
    slot.copy_from_slice(file);
    let is_right = right::is_sheet(slot);
    if !is_right {
        return None;
    }
    Some(false)
}
