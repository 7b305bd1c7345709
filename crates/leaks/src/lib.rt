// The leaks pass: refusals 13 and 14.
#![tactic(auto)]

ghost use Rattle.std.specs.Prelude.{◌≡◌, not, ◌&&◌, ◌*◌, ◌≤◌, eqb};
ghost use Rattle.table.specs.Rows.{row_count};
ghost use Rattle.table.specs.Index.{index_of};
ghost use Rattle.table.specs.Verdicts.{fault_of, verdict_of};
ghost use Rattle.declarations.specs.Program.{number, number_ref, row_kind, kinds_of, code_of, code_verdict, parameter_kinds, result_kinds};
ghost use Rattle.effects.specs.Effects.{effect_of};
ghost use Rattle.sizes.specs.code.Formed.{Formed};
ghost use Rattle.helpers.specs.Tables.{is_private, is_helper};
ghost use Rattle.leaks.specs.Leaks.{in_trusted, some_marked, leak_from, leak_in, leaks_of};
ghost use Rattle.leaks.specs.code.Read.{marked_at, marked_in, read_pass};

use entries::RowEntry;
use table::index::{Index, ProcedureEntry, TypeEntry};
use table::refusals::{Reason, Refusal};
use table::{Row, format};

// Whether the operand that a row declares, with so many above it, is a writable reference to a number and marked on arriving at row `at`.
#[tactic(auto, unfolding(crate::specs::code::Read::marked_at))]
fn is_marked(nodes: &[bool], at: usize, row: Row, above: usize) -> bool
    requires { (at ≤ 131072) × (above ≤ 65536) }
    ensures { result ≡ (eqb (row_kind row) number_ref && marked_at nodes.now at above) }
{
    declarations::row_kind(row) == declarations::NUMBER_REF
        && nodes.get(32 * at + (16 + above)).copied().unwrap_or(false)
}

// Whether some one of the operands that the rows from `from` to before `to` declare, the last on top, is such a one.
#[tactic(auto, using(crate::proofs::Laws::some_here, crate::proofs::Laws::some_later, crate::proofs::Laws::some_none))]
fn some_marked(table: &[u8], nodes: &[bool], at: usize, from: usize, to: usize) -> bool
    requires { (at ≤ 131072) × (to ≤ 65536) }
    ensures { result ≡ some_marked (marked_at nodes.now at) (kinds_of table.now from to) }
{
    for j in from..to {
        if is_marked(nodes, at, table::row_at(table, j), to - 1 - j) {
            return true;
        }
    }
    false
}

// 13: whether a marked reference is given to a procedure that is no helper.
#[tactic(auto, unfolding(declarations::specs::Program::parameter_kinds))]
fn gives_mark(
    table: &[u8],
    nodes: &[bool],
    own: ProcedureEntry,
    callee: ProcedureEntry,
    at: usize,
) -> bool
    requires { at ≤ 131072 }
    ensures { result ≡ (not (is_helper table.now own callee) && some_marked (marked_at nodes.now at) (parameter_kinds table.now callee)) }
{
    let end = declarations::parameters_end(table, callee);
    !entries::is_helper(table, own, callee)
        && some_marked(table, nodes, at, (callee.row as usize) + 1, end)
}

// 14: whether a procedure that is not private returns a marked reference.
#[tactic(auto, unfolding(declarations::specs::Program::result_kinds))]
fn returns_mark(table: &[u8], nodes: &[bool], own: ProcedureEntry, at: usize) -> bool
    requires { at ≤ 131072 }
    ensures { result ≡ (not (is_private table.now own) && some_marked (marked_at nodes.now at) (result_kinds table.now own)) }
{
    !entries::is_private(table, own)
        && some_marked(table, nodes, at, own.results as usize, own.code as usize)
}

// Why the instruction at row `at` is refused. `callee` is the procedure that its operand names; a type that it names does not matter.
#[tactic(auto, unfolding(crate::specs::Leaks::leak_in, effects::specs::Effects::effect_of, effects::specs::Effects::effects))]
fn fault_at(
    table: &[u8],
    nodes: &[bool],
    row: Row,
    own: ProcedureEntry,
    callee: ProcedureEntry,
    at: usize,
) -> Option<Reason>
    requires { at ≤ 131072 }
    ensures { (named : TypeEntry) → fault_of result ≡ leak_in (marked_at nodes.now at) row.a (is_helper table.now own callee) (is_private table.now own) (effect_of table.now own named callee row number).takes }
{
    match row.a {
        format::CALL if gives_mark(table, nodes, own, callee, at) => Some(Reason::MarkGiven),
        format::RET if returns_mark(table, nodes, own, at) => Some(Reason::MarkReturned),
        _ => None,
    }
}

// The instructions of a procedure, whose code is the part `code`.
fn judge_code(
    table: &[u8],
    code: &[u8],
    nodes: &[bool],
    own: ProcedureEntry,
    index: &Index,
) -> Result<usize, Refusal>
    requires { (code.now ≡ code_of table.now own) × (row_count code.now ≤ 65536) }
    ensures { verdict_of result ≡ code_verdict (leak_from table.now index.now own (marked_in nodes.now own)) own.code (row_count code.now) }
{
    let n = code.len() / format::ROW_BYTES;
    for i in 0..n {
        let row = table::row_at(code, i);
        let callee = declarations::procedure_in(index, row.b as usize);
        let at = (own.code as usize) + i;
        if let Some(reason) = fault_at(table, nodes, row, own, callee, at) {
            return Err(reason.at(at));
        }
    }
    Ok(n)
}

// Whether a procedure stands in a trusted module.
#[tactic(auto, unfolding(crate::specs::Leaks::in_trusted))]
fn is_trusted(table: &[u8], index: &Index, own: ProcedureEntry) -> bool
    ensures { result ≡ in_trusted table.now index.now own }
{
    let row = index
        .module_rows
        .get(own.owner as usize)
        .copied()
        .unwrap_or(0);
    table::row_at(table, row as usize).a == 1
}

// The pass over the procedures of trusted modules, by the marks that the search has found.
fn judge_marks(table: &[u8], nodes: &[bool], index: Index) -> Result<usize, Refusal>
    ensures { verdict_of result ≡ read_pass table.now index nodes.now }
{
    let count = index.procedures.min(format::MAX_PROCEDURES);
    for own in &index.procedure_entries[..count] {
        if is_trusted(table, &index, *own) {
            let code = table::procedures::part(table, own.code as usize, own.end as usize);
            judge_code(table, code, nodes, *own, &index)?;
        }
    }
    Ok(table.len() / format::ROW_BYTES)
}

// Judges a table of at most ROWS rows, in room for so many, and NODES nodes. Not inlined: the room of the large one is to be no part of the frame of every judgement.
#[inline(never)]
fn judge_in<const ROWS: usize, const NODES: usize>(
    table: &[u8],
    index: Index,
) -> Result<usize, Refusal>
    requires { Formed table.now × (index ≡ index_of table.now) × (row_count table.now ≤ ROWS) × (32 * ROWS ≤ NODES) × (NODES ≤ 65536) }
    ensures { verdict_of result ≡ leaks_of table.now }
{
    let n = table.len() / format::ROW_BYTES;
    let mut visited = [false; NODES];
    let mut queue = [0u16; NODES];
    let mut entries = [RowEntry::NONE; ROWS];
    let mut before = [0u16; ROWS];
    let mut last = [0u16; format::MAX_PROCEDURES];
    let mut arrives = [false; ROWS];
    let end = 32 * n;
    marks::find(
        table,
        index,
        &mut visited[..end],
        &mut queue,
        &mut entries[..n],
        &mut before[..n],
        &mut last,
        &mut arrives[..n],
    );
    judge_marks(table, &visited[..end], index)
}

// The leaks pass over a table that the passes length, rows and names accept, with its own index. Where no mark is made there is no search, and no room for one is cleared;
// else no more room than the table may need.
pub fn leaks_with(table: &[u8], index: Index) -> Result<usize, Refusal>
    requires { Formed table.now × (index ≡ index_of table.now) }
    ensures { verdict_of result ≡ leaks_of table.now }
{
    let n = table.len() / format::ROW_BYTES;
    if !entries::makes_some(table, index) {
        Ok(n)
    } else if n <= 256 {
        judge_in::<256, 8192>(table, index)
    } else {
        judge_in::<2048, 65536>(table, index)
    }
}
