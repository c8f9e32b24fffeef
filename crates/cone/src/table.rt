// The table of document 01: the number with which a call is refused. The judges say what is wrong; here stands which of it is given.
ghost use Rattle.std.specs.Prelude.{◌≡◌};
ghost use Rattle.cone.specs.table.Table.{number_of, code_of, no_faults, first_row, trace_row};

// Why a call is refused: a row of the table each, with its number.
#[derive(Clone, Copy, Debug, PartialEq, Eq)]
pub enum Refusal {
    BadCone = 1,
    WrongLength = 2,
    NotFinite = 3,
    BadSettings = 4,
    NeverScaled = 5,
    WouldPanic = 6,
    AnswerNotFinite = 7,
    NoRoom = 8,
    BrokenTrace = 9,
    OtherSerial = 10,
    LastSerial = 11,
}

impl Refusal {
    // The number that C is told.
    pub fn number(self) -> u32
        ensures { result ≡ number_of self }
    {
        self as u32
    }
}

// What C is told of a call that is refused or done: 0 is "done".
pub fn code(done: Result<(), Refusal>) -> u32
    ensures { result ≡ code_of done }
{
    match done {
        Ok(()) => 0,
        Err(refusal) => refusal.number(),
    }
}

// What is wrong with a call's arguments, a row of the table each: the cone, a slice's length, a number, the settings or the strategy, a
// record that has no further serial, one that was never scaled, one of another serial than the caller's.
#[derive(Clone, Copy)]
pub struct Faults {
    pub cone: bool,
    pub length: bool,
    pub number: bool,
    pub setting: bool,
    pub spent: bool,
    pub unscaled: bool,
    pub serial: bool,
}

// Nothing is wrong. A call sets the rows that can refuse it, and names no other.
pub fn no_faults() -> Faults
    ensures { result ≡ no_faults }
{
    Faults {
        cone: false,
        length: false,
        number: false,
        setting: false,
        spent: false,
        unscaled: false,
        serial: false,
    }
}

// The table: the first row that applies refuses the call.
pub fn first_row(faults: Faults) -> Result<(), Refusal>
    ensures { code_of result ≡ first_row faults }
{
    if faults.cone {
        return Err(Refusal::BadCone);
    }
    if faults.length {
        return Err(Refusal::WrongLength);
    }
    if faults.number {
        return Err(Refusal::NotFinite);
    }
    if faults.setting {
        return Err(Refusal::BadSettings);
    }
    if faults.spent {
        return Err(Refusal::LastSerial);
    }
    if faults.unscaled {
        return Err(Refusal::NeverScaled);
    }
    if faults.serial {
        return Err(Refusal::OtherSerial);
    }
    Ok(())
}

// The table for a call on a trace, which these two rows alone can refuse: what breaks the layout, and then what has no room.
pub fn trace_row(broken: bool, full: bool) -> Result<(), Refusal>
    ensures { code_of result ≡ trace_row broken full }
{
    if broken {
        return Err(Refusal::BrokenTrace);
    }
    if full {
        return Err(Refusal::NoRoom);
    }
    Ok(())
}
