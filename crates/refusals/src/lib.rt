// The refusal table: a name and a number for each row, in the order of document 01's table. Rows of document 02 stand where that document puts them.

#![tactic(auto)]

ghost use Rattle.std.specs.Prelude.{◌≡◌};
ghost use Rattle.refusals.specs.Table.{number_of};

#[derive(Clone, Copy, Debug, PartialEq, Eq)]
pub enum Refusal {
    // Records: the reader.
    TooShort = 1,
    Authority = 2,
    VersionClass = 3,
    UnknownKind = 4,
    LabelLength = 5,
    Truncated = 6,
    AggregationLabel = 7,
    PrimaryLabel = 8,
    SecondaryLabel = 9,
    DataType = 10,
    DataLength = 11,
    WrongKind = 15,
    FieldRange = 12,
    // Records: samples (document 02, Req 08).
    SamplePair = 19,
    SampleWords = 34,
    SampleValue = 37,
    SampleSpace = 35,
    // Records: the writer, lists, the listing program.
    WriterInput = 14,
    WriterSpace = 13,
    ListFull = 16,
    BufferSize = 17,
    // The ledger.
    NotSheet = 20,
    NoDesk = 21,
    BadKey = 22,
    FirstNumber = 32,
    AlreadyEnrolled = 23,
    LedgerFull = 24,
    NoRow = 25,
    DeskOpen = 26,
    DeskClosed = 27,
    OutsideRow = 28,
    AlreadyTicked = 29,
    NotTicked = 30,
    Stale = 31,
    RowOpen = 36,
    MissingSpace = 60,
    // Traces and seasons (document 02, Req 11 and Req 13).
    NotTrace = 40,
    SeasonLength = 42,
    KeyInTwoSheets = 41,
    // Dates.
    DayCount = 33,
    // Medium band tapes.
    TapeLengths = 50,
    TapeLengthWord = 51,
    TapeTime = 52,
    TapeRate = 53,
    TapeBlock = 54,
    // Mission agreements (document 02, Req 14).
    NotSettings = 43,
    UnknownEdition = 44,
    AlreadySet = 45,
    SettingsFull = 46,
    NoSetting = 47,
    // Calls from C (document 02, Req 06).
    AnswerLength = 38,
    TextSpace = 61,
}

// The number of a refusal in the table. By hand, since `refusals::number(why)` says at each
// call what it gives, and `u32::from(why)` would not.
pub fn number(r: Refusal) -> u32
    ensures { result ≡ number_of r }
{
    r as u32
}
