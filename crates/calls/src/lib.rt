// The call list: refusals 15 and 16, and how many arguments a call has. It takes any bytes and any index.
#![tactic(auto)]

ghost use Rattle.std.specs.Prelude.{◌≡◌, not, ◌&&◌, ◌||◌, ◌+◌, ◌-◌, eqb, leb, length};
ghost use Rattle.table.specs.Rows.{row_count};
ghost use Rattle.table.specs.Verdicts.{fault_of, verdict_of};
ghost use Rattle.declarations.specs.Program.{kinds_of, parameter_kinds, result_kinds};
ghost use Rattle.semantics.specs.Calls.{arguments, is_public, bad_kind, unused_byte, argument_first, all_numbers, bad_budget, list_fault, list_of};

use table::index::{Index, ProcedureEntry};
use table::refusals::{Reason, Refusal};
use table::{Row, format};

// Kinds of list rows: a call (B the procedure, C the budget), and an argument (D) of the call above. They are bytes of the list, of which any may stand
// there.
pub const CALL: u8 = 1;

pub const ARGUMENT: u8 = 2;

// Limits: at most 256 rows, and at most so many instructions for a call.
pub const MAX_LIST_BYTES: usize = 4096;

pub const MAX_BUDGET: u32 = 65535;

// How many arguments the call at row i has.
pub fn argument_count(list: &[u8], i: usize) -> usize
    ensures { result ≡ length (arguments list.now (i + 1) (row_count list.now - (i + 1))) }
{
    let n = list.len() / format::ROW_BYTES;
    if n <= i {
        return 0;
    }
    let first = i + 1;
    for j in first..n {
        if table::kind_at(list, j) != ARGUMENT {
            return j - first;
        }
    }
    n - first
}

// 15: a kind that is none of a list; an unused byte that is not 0 (A of every row, D of a call, B and C of an argument); an argument above which there is
// no call.
#[tactic(auto, unfolding(semantics::specs::Calls::bad_kind, semantics::specs::Calls::unused_byte, semantics::specs::Calls::argument_first))]
fn bad_form(row: Row, i: usize) -> bool
    ensures { result ≡ (bad_kind row || unused_byte row || argument_first row i) }
{
    row.a != 0
        || match row.kind {
            CALL => row.d != 0,
            ARGUMENT => row.b != 0 || row.c != 0 || i == 0,
            _ => true,
        }
}

// Whether the rows from `from` to before `to` declare numbers only.
fn all_numbers(table: &[u8], from: usize, to: usize) -> bool
    ensures { result ≡ all_numbers (kinds_of table.now from to) }
{
    (from..to).all(|i| declarations::row_kind(table::row_at(table, i)) == declarations::NUMBER)
}

// 16: a parameter or a result that is no number.
#[tactic(auto, unfolding(declarations::specs::Program::parameter_kinds, declarations::specs::Program::result_kinds))]
fn not_numbers(table: &[u8], p: ProcedureEntry) -> bool
    ensures { result ≡ not (all_numbers (parameter_kinds table.now p) && all_numbers (result_kinds table.now p)) }
{
    let end = declarations::parameters_end(table, p);
    !(all_numbers(table, (p.row as usize) + 1, end)
        && all_numbers(table, p.results as usize, p.code as usize))
}

// 16: not as many arguments as the procedure has parameters.
fn wrong_count(table: &[u8], p: ProcedureEntry, count: usize) -> bool
    ensures { result ≡ not (eqb count (length (parameter_kinds table.now p))) }
{
    count != steps::parameters_of(table, p) as usize
}

// 16: a budget out of range.
#[tactic(auto, unfolding(semantics::specs::Calls::bad_budget))]
fn bad_budget(budget: u32) -> bool
    ensures { result ≡ bad_budget budget }
{
    budget == 0 || MAX_BUDGET < budget
}

// 16: a procedure that is not public.
fn is_private(table: &[u8], p: ProcedureEntry) -> bool
    ensures { result ≡ not (is_public table.now p) }
{
    table::row_at(table, p.row as usize).a != 1
}

// 16: a bad call, of a procedure with entry p, with so many arguments, in a table with so many procedures.
fn bad_call(table: &[u8], procedures: usize, p: ProcedureEntry, row: Row, count: usize) -> bool
    ensures { result ≡ (leb procedures row.b || not (is_public table.now p) || not (all_numbers (parameter_kinds table.now p) && all_numbers (result_kinds table.now p)) || not (eqb count (length (parameter_kinds table.now p))) || bad_budget row.c) }
{
    procedures <= row.b as usize
        || is_private(table, p)
        || not_numbers(table, p)
        || wrong_count(table, p, count)
        || bad_budget(row.c)
}

// The lowest number that row i of the list earns, or none.
fn list_fault(table: &[u8], list: &[u8], index: &Index, i: usize) -> Option<Reason>
    ensures { fault_of result ≡ list_fault table.now index.now list.now i }
{
    let row = table::row_at(list, i);
    if bad_form(row, i) {
        return Some(Reason::BadList);
    }
    if row.kind == CALL
        && bad_call(
            table,
            index.procedures,
            declarations::procedure_in(index, row.b as usize),
            row,
            argument_count(list, i),
        )
    {
        return Some(Reason::BadCall);
    }
    None
}

// The verdict on a list, with the index of its table: its length first, then its lowest faulty row.
pub fn list_verdict(table: &[u8], list: &[u8], index: Index) -> Result<usize, Refusal>
    ensures { verdict_of result ≡ list_of table.now index list.now }
{
    if MAX_LIST_BYTES < list.len() || list.len() % format::ROW_BYTES != 0 {
        return Err(Reason::BadList.at(0));
    }
    let n = list.len() / format::ROW_BYTES;
    for i in 0..n {
        if let Some(reason) = list_fault(table, list, &index, i) {
            return Err(reason.at(i));
        }
    }
    Ok(n)
}
