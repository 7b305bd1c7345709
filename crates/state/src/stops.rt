// Why a call ended, by the numbers that the text tells. The stops of documents 01 and 02 have their names in the rules (semantics/specs/Limits). A State
// keeps the number in a byte, 0 while the call runs: with an Option<Stop> in its place each instruction took a quarter longer (arithmetic 7.9 to 9.9 ns,
// Call and Ret 8.9 to 11.6 ns).
ghost use Rattle.std.specs.Prelude.{◌≡◌};
ghost use Rattle.state.specs.code.Stops.{number_of};

// It is done, it came to what no accepted table comes to, or it came to a stop.
#[derive(Clone, Copy, PartialEq, Eq)]
pub enum Stop {
    Done = 1,
    BudgetSpent = 31,
    TooLarge = 32,
    KeyTaken = 33,
    NoSuchKey = 34,
    StaleReference = 35,
    TooManyFrames = 36,
    TooManyRecords = 37,
    TooManyEntries = 38,
    BelowZero = 39,
    Broken = 99,
}

impl Stop {
    pub fn number(self) -> u8
        ensures { result ≡ number_of self }
    {
        self as u8
    }
}
