// One instruction of the machine: a match on the opcode, and a function for each.
#![tactic(auto)]

ghost use Rattle.std.specs.Prelude.{◌≡◌};
ghost use Rattle.state.specs.code.Cells.{cells_of};
ghost use Rattle.frame.specs.code.Turning.{after};
ghost use Rattle.step.specs.code.Step.{turn_of};

use state::frames::State;
use state::stops::Stop;
use table::index::{ProcedureEntry, TypeEntry};
use table::{Row, format};

// The instruction `row` of procedure `own`; `named` is the type and `callee` the procedure that it names.
pub fn step(
    s: State,
    cells: &mut [u64],
    table: &[u8],
    row: Row,
    own: ProcedureEntry,
    named: TypeEntry,
    callee: ProcedureEntry,
) -> State
    ensures { after result (cells_of cells.new) ≡ turn_of table.now row own named callee (cells_of cells.old) s }
{
    let opcode = row.a;
    let b = row.b;
    match opcode {
        format::POP => frame::stack::pop(s),
        format::LOAD_CONST => frame::stack::load_const(s, cells, row.d),
        format::MV_LOC => frame::stack::move_local(s, cells, b),
        format::CP_LOC => frame::stack::copy_local(s, cells, b),
        format::ST_LOC => frame::stack::store_local(s, cells, b),
        format::BORROW_LOC => frame::stack::borrow_local(s, cells, table, own, b),
        format::READ_REF => references::targets::read_ref(s, cells),
        format::WRITE_REF => references::targets::write_ref(s, cells),
        format::BORROW_FLD => references::targets::borrow_field(s, cells, b),
        format::PACK => records::packing::pack(s, cells, named, b),
        format::UNPACK => records::packing::unpack(s, cells),
        format::MOVE_TO => records::published::move_to(s, cells, b),
        format::MOVE_FROM => records::published::move_from(s, cells, b),
        format::BORROW_GLOBAL => records::published::borrow_global(s, cells, b),
        format::EXISTS => records::published::exists(s, cells, b),
        format::CALL => frame::control::call(s, cells, table, callee, b),
        format::RET => frame::control::ret(s, cells, own),
        format::BRANCH => s.go_to(b),
        format::BRANCH_COND => frame::control::branch_cond(s, cells, b),
        format::OP => frame::operations::op(s, cells, b),
        // A cell does not tell whether a reference is read-only: the judge has seen that it is not written through.
        format::FREEZE => s.next(),
        format::PAST_OPCODES..=255 => s.ended(Stop::Broken),
    }
}
