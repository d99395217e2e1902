// The season's gap report (document 02, request 13). A lent slice holds up to 16 ledger sheets, one after another. The report gives, for each sheet
// and in all, how many positions are ticked, missing, and missing per million; and the first gap.

#![tactic(auto)]

ghost use Rattle.std.specs.Prelude.{◌≡◌, List, ◌∷◌, [], ℕ, ◌+◌, ◌*◌, ◌≤◌, ◌<◌, length, Ok};
ghost use Rattle.refusals.specs.Judge.{verdict};
ghost use Rattle.ledger_model.specs.Positions.{row_length};
ghost use Rattle.ledger_sheet.specs.Sheet.{sheet_size, row_count};
ghost use Rattle.ledger_sheet.specs.Words.{answer_words};
ghost use Rattle.ledger_layout.specs.Layout.{book_of, place_in};
ghost use Rattle.ledger_season.specs.Report.{most_sheets, per_million, three, gap_in, report};
ghost use Rattle.ledger_season.specs.Season.{counts_words, or_further, sheet_at, right_to, books_to, season_rules, season, Answers};
ghost use Rattle.ledger_season.specs.inner.Gathered.{most_keys, most_slots, distinct, are_new, keys_of_all, Keyed, or_else, Counts, Adds};

use ledger_sheet as sheet;
use ledger_sheet::{Gap, right};
use refusals::Refusal;

pub const MOST_SHEETS: usize = 16;

// How many keys the sheets of a season have at most.
const MOST_KEYS: usize = MOST_SHEETS * sheet::ROWS;

// A prime, many times the number of keys. Keys that differ in a few fields seldom share a slot.
const SLOTS: usize = 7699;

// Other primes, for keys that share slots modulo the first one.
const PRIMES: [u64; 8] = [7691, 7687, 7681, 7673, 7669, 7649, 7643, 7639];

// If at most this many keys fall into a slot that another key has, few share one. Of random keys, some 17 do.
const FEW: usize = 24;

const MILLION: u64 = 1000000;

// The counts of a sheet, or in all: ticked positions, missing positions, and missing per million of both together.
#[derive(Clone, Copy)]
pub struct SheetCounts {
    pub ticked: u32,
    pub missing: u32,
    pub per_million: u32,
}

// The first gap of the season: the sheet, its row, and the missing number.
#[derive(Clone, Copy)]
pub struct SeasonGap {
    pub sheet: u32,
    pub row: u32,
    pub number: u32,
}

// The report of a season: how many sheets; the counts of each, zeros past the last; the counts in all; the first gap, if something is missing.
#[derive(Clone, Copy)]
pub struct SeasonReport {
    pub count: u32,
    pub sheets: [SheetCounts; MOST_SHEETS],
    pub total: SheetCounts,
    pub gap: Option<SeasonGap>,
}

// The counts of a sheet's rows, and its first gap, if something is missing.
#[derive(Clone, Copy)]
struct Counted {
    ticked: u32,
    missing: u32,
    gap: Option<Gap>,
}

// Reports on the season whose sheets stand one after another in the slice.
pub fn season(s: &[u8]) -> Result<SeasonReport, Refusal>
    ensures { Answers (season s.now) result }
{
    season_verdict(s)?;
    Ok(count_season(s, s.len() / sheet::SHEET))
}

// ---- the refusals of a season

fn season_verdict(s: &[u8]) -> Result<(), Refusal>
    ensures { answer_words result ≡ verdict (season_rules s.now) ∷ [] }
{
    let sheets = s.len() / sheet::SHEET;
    if (s.len() % sheet::SHEET != 0) | (sheets > MOST_SHEETS) {
        return Err(Refusal::SeasonLength);
    }
    if !are_sheets(s, sheets) {
        return Err(Refusal::NotSheet);
    }
    if !are_keys_new(s, sheets) {
        return Err(Refusal::KeyInTwoSheets);
    }
    Ok(())
}

// Whether each of n sheets is right.
// Said in each, since a season is one lent slice whose length tells n: a type for both would be built once and taken apart at each sheet.
fn are_sheets(s: &[u8], n: usize) -> bool
    requires { (n ≤ most_sheets) × (sheet_size * n ≤ length s.now) }
    ensures { result ≡ right_to s.now n }
{
    (0..n).all(|k| right::is_sheet(sheet_of(s, k)))
}

// The bytes of sheet k.
fn sheet_of(s: &[u8], k: usize) -> &[u8]
    requires { (k < most_sheets) × (sheet_size * k + sheet_size ≤ length s.now) }
    ensures { result.now ≡ sheet_at s.now k }
{
    let a = sheet::SHEET * k;
    &s[a..a + sheet::SHEET]
}

// Whether no key is twice in n sheets.
fn are_keys_new(s: &[u8], n: usize) -> bool
    requires { (n ≤ most_sheets) × (sheet_size * n ≤ length s.now) }
    ensures { result ≡ distinct (keys_of_all (books_to s.now n)) }
{
    // A fixed array, since the library allocates nothing: 16 sheets have at most 512 keys.
    let mut keys = [0u64; MOST_KEYS];
    let mut found = 0;
    // Goes by index. An iterator over `chunks_exact(SHEET)` has yet to be tried.
    for k in 0..n {
        found = read_keys(sheet_of(s, k), &mut keys, found);
    }
    are_new(&keys[..found])
}

// Puts the keys of a sheet's used rows behind those found before. Gives how many there are now.
// Each function asks for the length of its sheet. A sheet as an array, from `as_chunks`, has yet to be tried.
fn read_keys(s: &[u8], keys: &mut [u64; MOST_KEYS], found: usize) -> usize
    requires { (length s.now ≡ sheet_size) × (length keys.old ≡ most_keys) × (found + row_count ≤ most_keys) }
    ensures { Keyed keys.old found (book_of s.now).places keys.new result }
{
    let mut count = found;
    // By index, since a row is read by its number and at the offset that comes from it.
    for i in 0..sheet::ROWS {
        if right::is_used(s, i) {
            keys[count] = right::key_at(s, sheet::row_at(i));
            count += 1;
        }
    }
    count
}

// Whether the keys are different.
fn are_new(keys: &[u64]) -> bool
    ensures { result ≡ are_new keys.now (length keys.now) }
{
    if few_share(keys, SLOTS as u64) {
        return are_new_in(keys, SLOTS as u64);
    }
    are_new_in(keys, other_slots(keys))
}

// The first of the primes for which few of the keys share a slot. Somebody could pick keys that all share a slot modulo the first prime, but hardly
// keys that do so modulo each.
fn other_slots(keys: &[u64]) -> u64
    ensures { (0 < result) × (result ≤ most_slots) }
{
    for slots in PRIMES {
        if few_share(keys, slots) {
            return slots;
        }
    }
    SLOTS as u64
}

// Whether few of the keys fall into a slot that an earlier key has.
fn few_share(keys: &[u64], slots: u64) -> bool
    requires { (0 < slots) × (slots ≤ most_slots) }
{
    let mut taken = [false; SLOTS];
    let mut shared = 0;
    for key in keys {
        let slot = (*key % slots) as usize;
        if taken[slot] {
            shared += 1;
        }
        taken[slot] = true;
    }
    shared <= FEW
}

// Whether the keys are all different. A key in a slot that no key had before is new; any other is compared with each before it.
fn are_new_in(keys: &[u64], slots: u64) -> bool
    requires { (0 < slots) × (slots ≤ most_slots) }
    ensures { result ≡ are_new keys.now (length keys.now) }
{
    let mut taken = [false; SLOTS];
    for (i, key) in keys.iter().enumerate() {
        let slot = (*key % slots) as usize;
        if taken[slot] {
            if !right::is_other(&keys[..i], *key) {
                return false;
            }
        }
        taken[slot] = true;
    }
    true
}

// ---- the counts

// Counts n right sheets.
fn count_season(s: &[u8], n: usize) -> SeasonReport
    requires { (n ≤ most_sheets) × (sheet_size * n ≤ length s.now) }
    ensures { Answers (0 ∷ report (books_to s.now n)) (Ok result) }
{
    let nothing = SheetCounts {
        ticked: 0,
        missing: 0,
        per_million: 0,
    };
    let mut sheets = [nothing; MOST_SHEETS];
    let mut ticked: u32 = 0;
    let mut missing: u32 = 0;
    let mut gap = None;
    // Goes by index: k is the sheet's number in the report. `chunks_exact` with `enumerate` has yet to be tried.
    for k in 0..n {
        let counted = count_sheet(sheet_of(s, k));
        sheets[k] = with_rate(counted.ticked, counted.missing);
        ticked += counted.ticked;
        missing += counted.missing;
        let found = counted.gap;
        gap = first_of(gap, k as u32, found);
    }
    let total = with_rate(ticked, missing);
    SeasonReport {
        count: n as u32,
        sheets,
        total,
        gap,
    }
}

// Counts the rows of a sheet.
fn count_sheet(s: &[u8]) -> Counted
    requires { length s.now ≡ sheet_size }
    ensures { Counts (book_of s.now).places result }
{
    let mut sum = Counted {
        ticked: 0,
        missing: 0,
        gap: None,
    };
    // By index, since a row's number goes into its gap, and its offset comes from it.
    for row in 0..sheet::ROWS {
        sum = add_row(s, row, sum);
    }
    sum
}

// Adds the counts of one more row; a free row adds nothing.
fn add_row(s: &[u8], row: usize, sum: Counted) -> Counted
    requires { (length s.now ≡ sheet_size) × (row < row_count) × (sum.ticked ≤ row_length * row) × (sum.missing ≤ row_length * row) }
    ensures { Adds (place_in s.now row) row sum result }
{
    if !right::is_used(s, row) {
        return sum;
    }
    let report = ledger_counts::row_report(s, row);
    let ticked = sum.ticked + report.ticked;
    match report.gaps {
        None => Counted { ticked, ..sum },
        Some(gaps) => Counted {
            ticked,
            missing: sum.missing + gaps.missing,
            gap: sum.gap.or(Some(Gap {
                number: gaps.lowest,
                row: row as u32,
            })),
        },
    }
}

// The gap found before; if there is none, this sheet's.
fn first_of(gap: Option<SeasonGap>, sheet: u32, found: Option<Gap>) -> Option<SeasonGap>
    ensures { (further : List ℕ) → or_further result further ≡ or_further gap (gap_in sheet (or_else found []) further) }
{
    gap.or(found.map(|g| SeasonGap {
        sheet,
        row: g.row,
        number: g.number,
    }))
}

// The counts with the missing per million.
fn with_rate(ticked: u32, missing: u32) -> SheetCounts
    ensures { counts_words result ≡ three ticked missing }
{
    SheetCounts {
        ticked,
        missing,
        per_million: per_million(ticked, missing),
    }
}

// How many are missing per million of both together, rounded down; 0 if both are 0.
fn per_million(ticked: u32, missing: u32) -> u32
    ensures { result ≡ per_million ticked missing }
{
    let both = ticked as u64 + missing as u64;
    if both == 0 {
        return 0;
    }
    (missing as u64 * MILLION / both) as u32
}
