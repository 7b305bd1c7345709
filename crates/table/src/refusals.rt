// Why a table, a rule file, a list of calls or a buffer is refused (documents 01 and 02), pass by pass. specs/Refusals.antt has the same names for the rules.
ghost use Rattle.std.specs.Prelude.{◌≡◌, ℕ, Some};
ghost use Rattle.table.specs.Verdicts.{number_of, value_of, number_of_reason, refusal_at, refused_text, told};

use std::error::Error;
use std::fmt;

// The reasons, each with its number.
#[derive(Clone, Copy, Debug, PartialEq, Eq)]
pub enum Reason {
    // Length.
    BadLength = 1,
    // Rows: a kind unknown or not allowed there; a limit passed; an unused byte that is not zero; a value not allowed; a guard misplaced.
    BadPlace = 2,
    OverLimit = 3,
    DirtyByte = 4,
    WrongValue = 18,
    WrongGuard = 19,
    // Names: a procedure without instructions, or with another last one than Ret and Branch; what is named does not exist.
    OpenEnd = 5,
    NotDeclared = 6,
    // Operands: missing, of the wrong kind, or a local unfit; too many; some left; a type or private procedure of another module.
    WrongOperand = 7,
    TooManyOperands = 8,
    OperandsLeft = 9,
    ForeignName = 10,
    // Locals: one that may be empty; a record that may be lost.
    EmptyLocal = 11,
    LostRecord = 12,
    // Leaks: a marked reference given to a Call; returned.
    MarkGiven = 13,
    MarkReturned = 14,
    // Rules, where there is a rule file: malformed; a pair of modules under no row of it, or under several; a Call that it forbids.
    BadRules = 20,
    UnruledPair = 21,
    ForbiddenCall = 22,
    // Running: the list; a call; the text buffer.
    BadList = 15,
    BadCall = 16,
    SmallBuffer = 17,
}

impl Reason {
    // Its number in documents 01 and 02.
    pub fn number(self) -> u8
        ensures { result ≡ number_of_reason self }
    {
        self as u8
    }

    // The refusal for this reason at a row.
    pub fn at(self, row: usize) -> Refusal
        ensures { result ≡ refusal_at self row }
    {
        Refusal { reason: self, row }
    }
}

// A refusal: why, and the row, or the pair of modules, that earns it.
#[derive(Clone, Copy, Debug, PartialEq, Eq)]
pub struct Refusal {
    pub reason: Reason,
    pub row: usize,
}

// As the programs print it.
impl fmt::Display for Refusal {
    ghost output = { λ x. Some (refused_text x) };

    fn fmt<W: fmt::Write>(&self, f: &mut fmt::Formatter<W>) -> fmt::Result {
        let number = self.reason.number();
        write!(f, "refused {number} row {}", self.row)
    }
}

impl Error for Refusal {}

// What a refusal tells: its number in documents 01 and 02, and the row, or the pair of modules, that earns it. Any two numbers tell both.
pub trait Told: Copy {
    ghost tells: { Self → ℕ × ℕ };

    fn number(self) -> u8
        ensures { result ≡ (tells self).0 };

    fn row(self) -> usize
        ensures { result ≡ (tells self).1 };
}

impl Told for Refusal {
    ghost tells = { λ x. (number_of_reason x.reason, x.row) };

    fn number(self) -> u8 {
        self.reason.number()
    }

    fn row(self) -> usize {
        self.row
    }
}

impl Told for (u8, usize) {
    ghost tells = { λ x. (x.0, x.1) };

    fn number(self) -> u8 {
        self.0
    }

    fn row(self) -> usize {
        self.1
    }
}

// Document 01's number: 0 where the table is accepted.
pub fn number_of<R: Told>(verdict: Result<usize, R>) -> u8
    ensures { result ≡ number_of (told R.tells verdict) }
{
    match verdict {
        Ok(_) => 0,
        Err(refusal) => refusal.number(),
    }
}

// Document 01's value: the number of rows, or the refused row.
pub fn value_of<R: Told>(verdict: Result<usize, R>) -> usize
    ensures { result ≡ value_of (told R.tells verdict) }
{
    match verdict {
        Ok(rows) => rows,
        Err(refusal) => refusal.row(),
    }
}
