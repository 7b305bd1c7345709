// What the search looks up of each row, in an array by row number.
#![tactic(auto)]

ghost use Rattle.std.specs.Prelude.{◌≡◌, false, cond, ℕ, ◌+◌, ◌≤◌, ◌<◌, eqb, length, get_or};
ghost use Rattle.table.specs.Format.{procedure_kind};
ghost use Rattle.table.specs.Rows.{row_count};
ghost use Rattle.helpers.specs.Tables.{is_private, is_helper, borrows_guarded};
ghost use Rattle.entries.specs.code.Entries.{kept, sends_to, called_by, head_entry, code_entry, entry_by, Filled, last_after, before_after, Linked, makes_at, makes_some};

use table::index::{Index, ProcedureEntry, TypeEntry};
use table::{Row, format};

// Of a procedure's own row: its parameters, its results, the row of its first instruction, and its number. Of an instruction's row: what it takes and pushes, the row
// of its procedure's first instruction, the row of the procedure that it sends marks to, and the procedure that it calls, each of these two plus one, and 0 for none.
// No Option for these two: as `Option<u16>` each takes four bytes, and an entry 14 in place of 10.
#[derive(Clone, Copy)]
pub struct RowEntry {
    pub takes: u16,
    pub gives: u16,
    pub base: u16,
    pub sends: u16,
    pub calls: u16,
}

impl RowEntry {
    pub const NONE: RowEntry = RowEntry {
        takes: 0,
        gives: 0,
        base: 0,
        sends: 0,
        calls: 0,
    };
}

// A row plus one, where there is room.
#[tactic(auto, unfolding(crate::specs::code::Entries::kept))]
fn keep(row: u16) -> u16
    ensures { result ≡ kept row }
{
    row.checked_add(1).unwrap_or(0)
}

// Whether a procedure is private.
#[tactic(auto, unfolding(helpers::specs::Tables::is_private))]
pub fn is_private(table: &[u8], p: ProcedureEntry) -> bool
    ensures { result ≡ is_private table.now p }
{
    table::row_at(table, p.row as usize).a != 1
}

// Whether a procedure is a helper of another: private and of the same module.
#[tactic(auto, unfolding(helpers::specs::Tables::is_helper))]
pub fn is_helper(table: &[u8], own: ProcedureEntry, callee: ProcedureEntry) -> bool
    ensures { result ≡ is_helper table.now own callee }
{
    is_private(table, callee) && callee.owner == own.owner
}

// Where an instruction sends the marks of what it takes.
#[tactic(auto, unfolding(crate::specs::code::Entries::sends_to))]
fn sends_to(table: &[u8], row: Row, own: ProcedureEntry, callee: ProcedureEntry) -> u16
    ensures { result ≡ sends_to table.now own callee row }
{
    if row.a == format::CALL && is_helper(table, own, callee) {
        keep(callee.row)
    } else if row.a == format::RET && is_private(table, own) {
        keep(own.row)
    } else {
        0
    }
}

// The procedure that an instruction calls, plus one.
#[tactic(auto, unfolding(crate::specs::code::Entries::called_by))]
fn called_by(row: Row) -> u16
    ensures { result ≡ called_by row }
{
    if row.a == format::CALL {
        keep(row.b)
    } else {
        0
    }
}

// The entry of a procedure's own row.
#[tactic(auto, unfolding(crate::specs::code::Entries::head_entry, declarations::specs::Program::parameter_count))]
fn head_entry(table: &[u8], own: ProcedureEntry, number: u16) -> RowEntry
    ensures { result ≡ head_entry table.now own number }
{
    RowEntry {
        takes: steps::parameters_of(table, own),
        gives: steps::results_of(own),
        base: own.code,
        sends: number,
        calls: 0,
    }
}

// The entry of an instruction's row.
#[tactic(auto, unfolding(crate::specs::code::Entries::code_entry))]
fn code_entry(
    table: &[u8],
    row: Row,
    own: ProcedureEntry,
    named: TypeEntry,
    callee: ProcedureEntry,
) -> RowEntry
    ensures { result ≡ code_entry table.now own named callee row }
{
    let counts = steps::counts_of(table, row, own, named, callee);
    RowEntry {
        takes: counts.takes,
        gives: counts.gives,
        base: own.code,
        sends: sends_to(table, row, own, callee),
        calls: called_by(row),
    }
}

// The entry of a row, with so many procedures above it: `head` is the next procedure, `own` the one before it, `named` the type that the row names, and `callee` the procedure
// that it calls.
#[tactic(auto, unfolding(crate::specs::code::Entries::entry_by))]
fn entry_of(
    table: &[u8],
    row: Row,
    above: usize,
    head: ProcedureEntry,
    own: ProcedureEntry,
    named: TypeEntry,
    callee: ProcedureEntry,
) -> RowEntry
    requires { above ≤ 2048 }
    ensures { result ≡ entry_by table.now above head own named callee row }
{
    match row.kind {
        format::PROCEDURE => head_entry(table, head, above as u16),
        format::INSTRUCTION => code_entry(table, row, own, named, callee),
        _ => RowEntry::NONE,
    }
}

// Fills the entries, from the first row to the last.
pub fn fill(table: &[u8], index: Index, entries: &mut [RowEntry])
    requires { (row_count table.now ≤ length entries.old) × (row_count table.now ≤ 2048) }
    ensures { Filled table.now index entries.new (row_count table.now) }
{
    let n = table.len() / format::ROW_BYTES;
    let mut above: usize = 0;
    for r in 0..n {
        let row = table::row_at(table, r);
        let head = declarations::procedure_in(&index, above);
        let own = declarations::procedure_in(&index, above.saturating_sub(1));
        let named = declarations::type_in(&index, operands::named_number(row.a, row.b));
        let callee = declarations::procedure_in(&index, row.b as usize);
        entries[r] = entry_of(table, row, above, head, own, named, callee);
        if row.kind == format::PROCEDURE {
            above += 1;
        }
    }
}

// Links row r to the last row that called the same procedure.
fn link_row(last: &mut [u16], before: &mut [u16], called: u16, r: usize)
    requires { (r < length before.old) × (r < 65535) }
    ensures { (last.new ≡ last_after last.old called r) × (before.new ≡ before_after last.old before.old called r) }
{
    let c = called as usize;
    if 0 < c && c <= last.len() {
        before[r] = last[c - 1];
        last[c - 1] = (r + 1) as u16;
    }
}

// Links the rows, from arrays that hold no link.
#[tactic(auto, using(crate::proofs::Links::linking_none))]
pub fn link(entries: &[RowEntry], last: &mut [u16], before: &mut [u16])
    requires { (length entries.now ≤ length before.old) × (length entries.now ≤ 65535) × ((q : ℕ) → get_or last.old q 0 ≡ 0) × ((r : ℕ) → get_or before.old r 0 ≡ 0) }
    ensures { Linked entries.now last.new before.new (length entries.now) × ((r : ℕ) → get_or before.new r 0 ≤ r) × ((q : ℕ) → get_or last.new q 0 ≤ length entries.now) }
{
    for (r, entry) in entries.iter().enumerate() {
        link_row(last, before, entry.calls, r);
    }
}

// Whether BorrowFld borrows a guarded field.
#[tactic(auto, unfolding(helpers::specs::Tables::borrows_guarded, declarations::specs::Program::field_row))]
fn borrows_guarded(table: &[u8], row: Row, named: TypeEntry) -> bool
    ensures { result ≡ borrows_guarded table.now named row }
{
    row.a == format::BORROW_FLD
        && table::row_at(table, (named.row as usize) + 1 + ((row.b % 8) as usize)).c == 1
}

// Whether the instruction at row r makes a mark of itself. The index is lent: with a copy for each BorrowFld a table of them took a third longer.
#[tactic(auto, using(crate::proofs::Laws::makes_is))]
fn makes(table: &[u8], index: &Index, r: usize) -> bool
    ensures { result ≡ makes_at table.now index.now r }
{
    let row = table::row_at(table, r);
    let named = declarations::type_in(index, operands::named_number(row.a, row.b));
    row.kind == format::INSTRUCTION && borrows_guarded(table, row, named)
}

// The same, with an index of its own.
pub fn makes_mark(table: &[u8], index: Index, r: usize) -> bool
    ensures { result ≡ makes_at table.now index r }
{
    makes(table, &index, r)
}

// Whether some instruction of a table makes a mark of itself, reached or not.
#[tactic(auto, using(crate::proofs::Laws::some_at, crate::proofs::Laws::some_next, crate::proofs::Laws::some_none, crate::proofs::Laws::makes_other))]
pub fn makes_some(table: &[u8], index: Index) -> bool
    ensures { result ≡ makes_some table.now index (row_count table.now) }
{
    let n = table.len() / format::ROW_BYTES;
    for r in 0..n {
        if table::row_at(table, r).a == format::BORROW_FLD && makes(table, &index, r) {
            return true;
        }
    }
    false
}
