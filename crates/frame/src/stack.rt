// Pop, LoadConst, MvLoc, CpLoc, StLoc and BorrowLoc.
ghost use Rattle.std.specs.Prelude.{◌≡◌, ◌%◌};
ghost use Rattle.declarations.specs.Program.{local_kind};
ghost use Rattle.state.specs.code.Cells.{cells_of};
ghost use Rattle.frame.specs.code.Turning.{after};
ghost use Rattle.frame.specs.code.Stack.{popped_by, const_of, move_of, copy_of, store_of, borrow_of};

use state::frames::State;
use table::index::ProcedureEntry;

pub fn pop(s: State) -> State
    ensures { result ≡ popped_by s }
{
    s.drop_top(1).next()
}

pub fn load_const(s: State, cells: &mut [u64], n: u64) -> State
    ensures { after result (cells_of cells.new) ≡ const_of (cells_of cells.old) s n }
{
    s.push(cells, state::NUMBER, n).next()
}

pub fn move_local(s: State, cells: &mut [u64], l: u16) -> State
    ensures { after result (cells_of cells.new) ≡ move_of (cells_of cells.old) s l }
{
    let next = s.load(cells, l);
    s.clear(cells, l);
    next.next()
}

pub fn copy_local(s: State, cells: &mut [u64], l: u16) -> State
    ensures { after result (cells_of cells.new) ≡ copy_of (cells_of cells.old) s l }
{
    s.load(cells, l).next()
}

pub fn store_local(s: State, cells: &mut [u64], l: u16) -> State
    ensures { after result (cells_of cells.new) ≡ store_of (cells_of cells.old) s l }
{
    s.store(cells, l).next()
}

// The kind of local l of a procedure.
fn kind_of_local(table: &[u8], own: ProcedureEntry, l: u16) -> u16
    ensures { result ≡ local_kind table.now own l % 65536 }
{
    let row = table::row_at(table, (own.row as usize) + 1 + (l as usize));
    (declarations::row_kind(row) % 65536) as u16
}

pub fn borrow_local(s: State, cells: &mut [u64], table: &[u8], own: ProcedureEntry, l: u16) -> State
    ensures { after result (cells_of cells.new) ≡ borrow_of (cells_of cells.old) s l (local_kind table.now own l) }
{
    let w = state::local_word(
        s.serial,
        s.depth,
        (l % 256) as u8,
        kind_of_local(table, own, l),
    );
    s.push(cells, state::TO_LOCAL, w).next()
}
