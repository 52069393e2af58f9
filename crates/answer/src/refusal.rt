// What a call is refused by: the numbers of documents 01 and 02.
ghost use Rattle.std.specs.Prelude.{◌≡◌, ◌≤◌};
ghost use Rattle.numbers.specs.Numbers.{pick};
ghost use Rattle.answer.specs.Refusal.{number, refused_by};

#[derive(Clone, Copy, Debug, PartialEq, Eq)]
pub enum Refusal {
    // The drive record is not well formed.
    Record = 1,
    // Not exactly six bytes; for the writer, a buffer with fewer than six.
    Length = 2,
    // The first two bytes are not 5A C3.
    Mark = 3,
    // The kind is not 1 to 11.
    Kind = 4,
    // An unused byte is not 0.
    Unused = 5,
    // Byte a is outside the values named for its kind.
    Value = 6,
    // The command of an LTE setpoint exceeds 2.
    Command = 7,
    // The percent of an LTE setpoint exceeds 100.
    Percent = 8,
    // The property of an LTE setpoint is not DamperMode's.
    Property = 9,
    // The value of a parameter write is outside the table.
    Range = 10,
    // Low would exceed High.
    LowAboveHigh = 11,
    // Rate is written during a run.
    RateInRun = 12,
    // Calibration while a fault is present or forcing is 2 or 3.
    Blocked = 13,
    // A row with no drive, or with more than 64.
    Row = 14,
    // A number of a list that is not below the row's length.
    Number = 15,
    // A tick, a list of more than 64, or too few places.
    Call = 16,
    // Fewer bytes than the lines of the page.
    Page = 17,
    // A quota that is not 1 to 64.
    Quota = 18,
    // A list that names a drive twice.
    Twice = 19,
    // A bill over the most, or not one share for each drive.
    Bill = 20,
    // No drive has moved.
    Unmoved = 21,
}

impl Refusal {
    // Kept: no From for u8, which could not promise that the number is never 0.
    pub fn number(self) -> u8
        ensures value { result ≡ number self }
        ensures some { 1 ≤ result }
    {
        self as u8
    }
}

// 0 where nothing is refused, and otherwise the refusal's number.
pub fn refused_by(result_of: Result<(), Refusal>) -> u8
    ensures { result ≡ refused_by result_of }
{
    match result_of {
        Ok(()) => 0,
        Err(refusal) => refusal.number(),
    }
}

// Refused where the test holds: a `?` behind each test finds the first that fits.
pub fn refuse(test: bool, refusal: Refusal) -> Result<(), Refusal>
    ensures { result ≡ pick test (Err refusal) (Ok tt) }
{
    if test { Err(refusal) } else { Ok(()) }
}
