// The line of the call that lists the numbers of a stream.
use crate::{Frame, line, records};

// The longest list, and what the lists hold before the call.
const MOST_LIST: usize = 64;

const FILL: u32 = 7;

const WIDE_FILL: u64 = FILL as u64;

// No words if a list would be too long.
pub(crate) fn list_numbers(f: Frame, s: &[u8], out: &mut [u8], at: usize) -> usize {
    let x = f.x as usize;
    let y = f.y as usize;
    let z = f.z as usize;
    let w = f.w as usize;
    if MOST_LIST < x || MOST_LIST < y || MOST_LIST < z || MOST_LIST < w {
        return at;
    }
    let mut places = [WIDE_FILL; MOST_LIST];
    let mut lengths = [WIDE_FILL; MOST_LIST];
    let mut kinds = [FILL; MOST_LIST];
    let mut record_numbers = [FILL; MOST_LIST];
    let walked = sfdu_lists::list_numbers(
        s,
        &mut places[..x],
        &mut lengths[..y],
        &mut kinds[..z],
        &mut record_numbers[..w],
    );
    let begun = records::walked(walked, out, at);
    let placed = line::numbers(out, begun, &places[..x]);
    let measured = line::numbers(out, placed, &lengths[..y]);
    let sorted = line::numbers(out, measured, &kinds[..z]);
    line::numbers(out, sorted, &record_numbers[..w])
}
