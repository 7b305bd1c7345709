// What a table declares, read through its index.
#![tactic(auto)]

ghost use Rattle.std.specs.Prelude.{◌≡◌};
ghost use Rattle.declarations.specs.Program.{record_of, record_ref, is_record, is_reference, is_writable, row_kind, type_in, procedure_in, local_count, parameters_end};
ghost use Rattle.declarations.specs.code.Limits.{over_limits};

use table::index::{Index, ProcedureEntry, TypeEntry};
use table::{Row, format};

// Kinds: eight times the type, and the sort, as the rules have them: a row with any two bytes there has one (specs/Program: row_kind). Those without a type: a
// number and a reference to one.
pub const NUMBER: u32 = 0;

pub const NUMBER_REF: u32 = 2;

// A record and a reference to one, by type.
pub fn record_of(y: u16) -> u32
    ensures { result ≡ record_of y }
{
    8 * (y as u32) + 1
}

pub fn record_ref(y: u16) -> u32
    ensures { result ≡ record_ref y }
{
    8 * (y as u32) + 3
}

// Whether a kind is a record.
#[tactic(auto, unfolding(crate::specs::Program::is_record))]
pub fn is_record(kind: u32) -> bool
    ensures { result ≡ is_record kind }
{
    kind % 8 == 1
}

// Whether a kind is a reference.
#[tactic(auto, unfolding(crate::specs::Program::is_reference))]
pub fn is_reference(kind: u32) -> bool
    ensures { result ≡ is_reference kind }
{
    2 <= kind % 8
}

// Whether a kind is a reference that can be written through.
#[tactic(auto, unfolding(crate::specs::Program::is_writable))]
pub fn is_writable(kind: u32) -> bool
    ensures { result ≡ is_writable kind }
{
    is_reference(kind) && kind % 8 <= 3
}

// The kind that a field, local or result row declares.
pub fn row_kind(row: Row) -> u32
    ensures { result ≡ row_kind row }
{
    8 * (row.b as u32) + (row.a as u32)
}

// The entry of type y, and of procedure p; the empty one for a number without a type, and without a procedure.
#[tactic(auto, unfolding(crate::specs::Program::type_in))]
pub fn type_in(index: &Index, y: usize) -> TypeEntry
    ensures { result ≡ type_in index.now y }
{
    index
        .type_entries
        .get(y)
        .copied()
        .unwrap_or(TypeEntry::NONE)
}

#[tactic(auto, unfolding(crate::specs::Program::procedure_in))]
pub fn procedure_in(index: &Index, p: usize) -> ProcedureEntry
    ensures { result ≡ procedure_in index.now p }
{
    index
        .procedure_entries
        .get(p)
        .copied()
        .unwrap_or(ProcedureEntry::NONE)
}

// The row after a procedure's last parameter.
pub fn parameters_end(table: &[u8], p: ProcedureEntry) -> usize
    ensures { result ≡ parameters_end table.now p }
{
    let end = p.results as usize;
    let start = (p.row as usize) + 1;
    for i in start..end {
        if table::row_at(table, i).c != 1 {
            return i;
        }
    }
    end.max(start)
}

// How many locals a procedure has.
#[tactic(auto, unfolding(crate::specs::Program::local_count))]
pub fn local_count(p: ProcedureEntry) -> usize
    ensures { result ≡ local_count p }
{
    (p.results as usize).saturating_sub((p.row as usize) + 1)
}

// Whether a procedure is over the limit on locals or on instructions.
#[tactic(auto, unfolding(crate::specs::Program::code_of, crate::specs::code::Limits::over_limits))]
pub fn over_limits(table: &[u8], p: ProcedureEntry) -> bool
    ensures { result ≡ over_limits table.now p }
{
    let code = table::procedures::part(table, p.code as usize, p.end as usize);
    format::MAX_LOCALS < local_count(p) || format::MAX_INSTRUCTIONS < code.len() / format::ROW_BYTES
}
