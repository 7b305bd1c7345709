// A call of a list: it begins, its instructions are run within its budget, and after a stop what lasts from call to call is as it was.
#![tactic(auto)]

ghost use Rattle.std.specs.Prelude.{◌≡◌, ◌+◌, ◌-◌, ◌/◌, ◌%◌, ◌≤◌, eqb, length};
ghost use Rattle.table.specs.Rows.{row_at, row_count};
ghost use Rattle.declarations.specs.Program.{code_of};
ghost use Rattle.semantics.specs.Calls.{arguments, call};
ghost use Rattle.state.specs.code.Cells.{cells_of};
ghost use Rattle.state.specs.code.Frames.{stop_of};
ghost use Rattle.frame.specs.code.Turning.{after};
ghost use Rattle.interpreter.specs.code.Run.{same_by, run_from, same_from};
ghost use Rattle.interpreter.specs.code.Calls.{carried, kept, kept_of, kept_since, freed, filled, begun, restored_to, same_restored, call_turn, same_call};

use state::frames::State;
use state::stops::Stop;
use table::index::{Index, ProcedureEntry};
use table::{Row, format};

// A state, and whether its entries and rooms are those that are kept. No enum: what comes next takes the state whatever the flag says.
#[derive(Clone, Copy)]
pub struct Ran {
    pub state: State,
    pub same: bool,
}

// A count of instructions and a mark in one number, which the compiler keeps in one register: twice the count, and 1 more where it is marked.
fn is_unmarked(left: u64) -> bool
    ensures { result ≡ eqb (left % 2) 0 }
{
    left % 2 == 0
}

fn marked(left: u64) -> u64
    ensures { (result / 2 ≡ left / 2) × (result % 2 ≡ 1) }
{
    left / 2 * 2 + 1
}

// Marked where an instruction can change entries or rooms: WriteRef, Pack, Unpack, MoveTo and MoveFrom can.
#[tactic(auto, unfolding(crate::specs::code::Run::changes_memory))]
fn marked_by(left: u64, opcode: u8) -> u64
    ensures { (result / 2 ≡ left / 2) × (eqb (result % 2) 0 ≡ same_by (eqb (left % 2) 0) opcode) }
{
    match opcode {
        format::WRITE_REF | format::PACK | format::UNPACK | format::MOVE_TO | format::MOVE_FROM =>
            marked(left),
        _ => left,
    }
}

// Instruction i of a procedure.
fn instruction_at(table: &[u8], own: ProcedureEntry, i: u16) -> Row
    ensures { result ≡ row_at (code_of table.now own) i }
{
    let code = table::procedures::part(table, own.code as usize, own.end as usize);
    table::row_at(code, i as usize)
}

// Runs instructions until the call ends or its budget is spent.
pub fn run(s: State, cells: &mut [u64], table: &[u8], index: Index, budget: u32) -> Ran
    ensures { (after result.state (cells_of cells.new) ≡ run_from table.now index budget (cells_of cells.old) s) × (result.same ≡ same_from table.now index budget (cells_of cells.old) s) }
{
    let mut now = s;
    let mut left: u64 = 2 * (budget as u64);
    // Not a `for`, which would count in a register of its own: the count and the mark are one number.
    while 2 <= left {
        left -= 2;
        let own = index.procedure_entries[(now.procedure % 128) as usize];
        let row = instruction_at(table, own, now.at);
        let named = index.type_entries[(row.b % 64) as usize];
        let callee = index.procedure_entries[(row.b % 128) as usize];
        now = step::step(now, cells, table, row, own, named, callee);
        if now.stop != 0 {
            return Ran {
                state: now,
                same: is_unmarked(left),
            };
        }
        left = marked_by(left, row.a);
    }
    Ran {
        state: now.ended(Stop::BudgetSpent),
        same: is_unmarked(left),
    }
}

// Copies k numbers from place `at` on.
fn copy_numbers(to: &mut [u64], from: &[u64], at: usize, k: usize)
    requires { (at + k ≤ length to.old) × (at + k ≤ length from.now) }
    ensures { to.new ≡ carried 0 to.old from.now at k }
{
    to[at..at + k].copy_from_slice(&from[at..at + k]);
}

// Copies the k cells from cell `at` on, where they are in both.
fn keep(to: &mut [u64], from: &[u64], at: u16, k: u16)
    ensures { cells_of to.new ≡ kept (cells_of to.old) (cells_of from.now) at k }
{
    let first = 2 * (at as usize);
    let n = 2 * (k as usize);
    if first + n <= to.len() && first + n <= from.len() {
        copy_numbers(to, from, first, n);
    }
}

// Copies the entries and the rooms of a state.
fn keep_memory(to: &mut [u64], from: &[u64], s: State)
    ensures { cells_of to.new ≡ kept_of (cells_of to.old) (cells_of from.now) s }
{
    keep(to, from, 544, 2 * (s.entries as u16));
    keep(to, from, 672, 9 * (s.rooms as u16));
}

// The same, where they are not kept already.
fn keep_changed(to: &mut [u64], from: &[u64], s: State, same: bool)
    ensures { cells_of to.new ≡ kept_since same (cells_of to.old) (cells_of from.now) s }
{
    if !same {
        keep_memory(to, from, s);
    }
}

// Empties the heads of n rooms from room r on.
fn free_rooms(cells: &mut [u64], r: u8, n: u8)
    ensures { cells_of cells.new ≡ freed (cells_of cells.old) r n }
{
    for j in 0..n {
        state::clear(cells, 672 + 9 * ((r as usize) + (j as usize)));
    }
}

// Puts numbers into cells: the arguments of the call at row i of a list.
fn put_arguments(cells: &mut [u64], list: &[u8], i: usize)
    ensures { cells_of cells.new ≡ filled (cells_of cells.old) 16 (arguments list.now (i + 1) (row_count list.now - (i + 1))) }
{
    if list.len() / format::ROW_BYTES <= i {
        return;
    }
    let n = calls::argument_count(list, i);
    for k in 0..n {
        state::put(
            cells,
            16 + k,
            state::NUMBER,
            table::row_at(list, i + 1 + k).d,
        );
    }
}

// The state in which a call begins.
fn begin(mut s: State, procedure: u16, count: u8) -> State
    ensures { result ≡ begun s procedure count }
{
    s.serial = s.frames;
    s.procedure = procedure;
    s.at = 0;
    s.depth = 0;
    s.height = 0;
    s.count = count;
    s.stop = 0;
    s.frames = state::frames::next_serial(s.frames);
    s
}

// After a call: where it is not done, entries and rooms are those of its beginning, which are kept.
fn restore(ran: Ran, cells: &mut [u64], saved: &[u64], first: State) -> Ran
    ensures { (after result.state (cells_of cells.new) ≡ restored_to (cells_of saved.now) first ran.same (after ran.state (cells_of cells.old))) × (result.same ≡ same_restored ran.same (stop_of result.state)) }
{
    let s = ran.state;
    if ran.same || s.stop == Stop::Done.number() {
        return ran;
    }
    keep_memory(cells, saved, first);
    free_rooms(
        cells,
        first.rooms,
        state::frames::rest(s.rooms, first.rooms),
    );
    let mut last = s;
    last.entries = first.entries;
    last.rooms = first.rooms;
    last.free = first.free;
    Ran {
        state: last,
        same: true,
    }
}

// The call at row i of a list.
pub fn call(
    before: Ran,
    cells: &mut [u64],
    saved: &mut [u64],
    table: &[u8],
    index: Index,
    list: &[u8],
    i: usize,
) -> Ran
    ensures { (after result.state (cells_of cells.new) ≡ call_turn table.now index (cells_of cells.old) (kept_since before.same (cells_of saved.old) (cells_of cells.old) before.state) before.state (call (row_at list.now i).b (row_at list.now i).c (arguments list.now (i + 1) (row_count list.now - (i + 1))))) × (result.same ≡ same_restored (same_call table.now index (cells_of cells.old) before.state (call (row_at list.now i).b (row_at list.now i).c (arguments list.now (i + 1) (row_count list.now - (i + 1))))) (stop_of result.state)) × (cells_of saved.new ≡ kept_since before.same (cells_of saved.old) (cells_of cells.old) before.state) }
{
    let s = before.state;
    let row = table::row_at(list, i);
    let callee = declarations::procedure_in(&index, row.b as usize);
    let count = frame::control::within(declarations::local_count(callee));
    keep_changed(saved, cells, s, before.same);
    state::empty_cells(cells, 16, count as u16);
    put_arguments(cells, list, i);
    let first = begin(s, row.b, count);
    let ran = run(first, cells, table, index, row.c);
    restore(ran, cells, saved, first)
}
