// How many operands each instruction takes and pushes.
#![tactic(auto)]

ghost use Rattle.std.specs.Prelude.{◌≡◌, ◌+◌, ◌-◌, ◌<◌, length};
ghost use Rattle.declarations.specs.Program.{number, parameters_end};
ghost use Rattle.effects.specs.Effects.{effect_of};

use table::index::{ProcedureEntry, TypeEntry};
use table::{Row, format};

// What an instruction takes and pushes.
#[derive(Clone, Copy)]
pub struct Counts {
    pub takes: u16,
    pub gives: u16,
}

// An entry that is not read, since its counts vary.
const VARIES: Counts = Counts { takes: 0, gives: 0 };

// What each opcode takes and pushes. The four that vary, by a type's fields or a procedure's parameters and results, are worked out in `counts_of`.
const COUNTS: [Counts; format::PAST_OPCODES as usize] = [
    Counts { takes: 1, gives: 0 }, // 0 Pop
    Counts { takes: 0, gives: 1 }, // 1 LoadConst
    Counts { takes: 0, gives: 1 }, // 2 MvLoc
    Counts { takes: 0, gives: 1 }, // 3 CpLoc
    Counts { takes: 1, gives: 0 }, // 4 StLoc
    Counts { takes: 0, gives: 1 }, // 5 BorrowLoc
    Counts { takes: 1, gives: 1 }, // 6 ReadRef
    Counts { takes: 2, gives: 0 }, // 7 WriteRef
    Counts { takes: 1, gives: 1 }, // 8 BorrowFld
    VARIES, // 9 Pack
    VARIES, // 10 Unpack
    Counts { takes: 2, gives: 0 }, // 11 MoveTo
    Counts { takes: 1, gives: 1 }, // 12 MoveFrom
    Counts { takes: 1, gives: 1 }, // 13 BorrowGlobal
    Counts { takes: 1, gives: 1 }, // 14 Exists
    VARIES, // 15 Call
    VARIES, // 16 Ret
    Counts { takes: 0, gives: 0 }, // 17 Branch
    Counts { takes: 1, gives: 0 }, // 18 BranchCond
    Counts { takes: 2, gives: 1 }, // 19 Op
    Counts { takes: 1, gives: 1 }, // 20 Freeze
];

// How many fields a type, and how many parameters and results a procedure has.
pub fn fields_of(y: TypeEntry) -> u16
    ensures { result ≡ y.end - (y.row + 1) }
{
    y.end.saturating_sub(y.row).saturating_sub(1)
}

pub fn parameters_of(table: &[u8], p: ProcedureEntry) -> u16
    ensures { result ≡ parameters_end table.now p - (p.row + 1) }
{
    let end = declarations::parameters_end(table, p);
    let start = (p.row as usize) + 1;
    end.saturating_sub(start) as u16
}

pub fn results_of(p: ProcedureEntry) -> u16
    ensures { result ≡ p.code - p.results }
{
    p.code.saturating_sub(p.results)
}

// How many operands an instruction takes and pushes.
pub fn counts_of(
    table: &[u8],
    row: Row,
    own: ProcedureEntry,
    named: TypeEntry,
    callee: ProcedureEntry,
) -> Counts
    ensures { (result.takes ≡ length (effect_of table.now own named callee row number).takes) × (result.gives ≡ length (effect_of table.now own named callee row number).gives) }
{
    match row.a {
        format::PACK => Counts {
            takes: fields_of(named),
            gives: 1,
        },
        format::UNPACK => Counts {
            takes: 1,
            gives: fields_of(named),
        },
        format::CALL => Counts {
            takes: parameters_of(table, callee),
            gives: results_of(callee),
        },
        format::RET => Counts {
            takes: results_of(own),
            gives: 0,
        },
        format::PAST_OPCODES..=255 => Counts { takes: 0, gives: 0 },
        _ => COUNTS[row.a as usize],
    }
}
