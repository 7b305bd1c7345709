// Call, Ret and BranchCond.
ghost use Rattle.std.specs.Prelude.{◌≡◌, ◌+◌, ◌-◌, ◌%◌};
ghost use Rattle.declarations.specs.Program.{local_count, parameters_end};
ghost use Rattle.state.specs.code.Cells.{cells_of};
ghost use Rattle.frame.specs.code.Turning.{after};
ghost use Rattle.frame.specs.code.Control.{within, called_in, call_of, returned_to, ret_of, branch_of};

use state::frames::State;
use state::stops::Stop;
use table::index::ProcedureEntry;

// n, at most 16.
pub fn within(n: usize) -> u8
    ensures { result ≡ within n }
{
    n.min(16) as u8
}

// A call with k arguments of a procedure with `count` locals.
fn call_with(s: State, cells: &mut [u64], procedure: u16, k: u8, count: u8) -> State
    ensures { after result (cells_of cells.new) ≡ called_in (cells_of cells.old) s procedure k count }
{
    if 15 <= s.depth {
        return s.ended(Stop::TooManyFrames);
    }
    let caller = s.drop_top(k);
    caller.suspend(cells);
    caller.enter(cells, procedure, k, count)
}

// Call.
pub fn call(s: State, cells: &mut [u64], table: &[u8], callee: ProcedureEntry, b: u16) -> State
    ensures { after result (cells_of cells.new) ≡ call_of (cells_of cells.old) s b (parameters_end table.now callee - (callee.row + 1)) (local_count callee) }
{
    let k = (steps::parameters_of(table, callee) % 256) as u8;
    call_with(s, cells, b, k, within(declarations::local_count(callee)))
}

// The k top operands handed to the frame below.
fn return_to(s: State, cells: &mut [u64], k: u8) -> State
    ensures { after result (cells_of cells.new) ≡ returned_to (cells_of cells.old) s k }
{
    let rest = s.drop_top(k);
    let caller = s.resume(cells);
    let next = caller.receive(cells, rest.operand_cell(rest.height), k);
    next.next()
}

// Ret.
pub fn ret(s: State, cells: &mut [u64], own: ProcedureEntry) -> State
    ensures { after result (cells_of cells.new) ≡ ret_of (cells_of cells.old) s (own.code - own.results) }
{
    if s.depth == 0 {
        return s.ended(Stop::Done);
    }
    return_to(s, cells, (steps::results_of(own) % 256) as u8)
}

// BranchCond.
pub fn branch_cond(s: State, cells: &[u64], b: u16) -> State
    ensures { result ≡ branch_of (cells_of cells.now) s b }
{
    if !s.has_number(cells, 0) {
        return s.ended(Stop::Broken);
    }
    if s.number(cells, 0) == 0 {
        return s.drop_top(1).next();
    }
    s.drop_top(1).go_to(b)
}
