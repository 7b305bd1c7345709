// The rule file, rules.bin: which module may call which. Refusals 20 to 22.
#![tactic(auto)]

ghost use Rattle.std.specs.Prelude.{◌≡◌, ◌<◌, ◌≤◌, length, false};
ghost use Rattle.table.specs.Verdicts.{Accepted, verdict_of};
ghost use Rattle.table.specs.Rows.{row_count};
ghost use Rattle.declarations.specs.Program.{code_verdict};
ghost use Rattle.policy.specs.Policy.{bad_range, bad_rule, file_of, rules_with};
ghost use Rattle.policy.specs.code.Grid.{painted, painted_from, painted_by, grid_of, unruled_in, pairs_in, permits_in, forbidden_in, calls_in};

use table::format;
use table::index::{Index, ProcedureEntry};
use table::refusals::{Reason, Refusal};

// At most so many rows.
const MAX_RULES: usize = 256;

// How many pairs of modules there are; pair k is 16 times caller plus called.
const PAIRS: usize = 256;

// How a pair stands: under no row; under one, which forbids or allows; under several.
#[derive(Clone, Copy)]
enum Standing {
    Unruled,
    Forbidden,
    Allowed,
    Several,
}

impl Standing {
    // How the pair stands under one row more.
    #[tactic(auto, unfolding(crate::specs::code::Grid::painted))]
    fn painted(self, allow: bool) -> Standing
        ensures { result ≡ painted self allow }
    {
        match self {
            Standing::Unruled => {
                if allow {
                    Standing::Allowed
                } else {
                    Standing::Forbidden
                }
            }
            _ => Standing::Several,
        }
    }
}

// Whether a range of modules is none: the first above the last, or the last above 15.
fn bad_range(first: u8, last: u8) -> bool
    ensures { result ≡ bad_range first last }
{
    last < first || 16 <= last
}

// 20: a rule row that is malformed.
fn bad_rule(rules: &[u8], i: usize) -> bool
    requires { i < row_count rules.now }
    ensures { result ≡ bad_rule rules.now i }
{
    let o = format::ROW_BYTES * i;
    let row = table::row_at(rules, i);
    let callers = bad_range(rules[o + 4], rules[o + 5]);
    let called = bad_range(rules[o + 6], rules[o + 7]);
    row.kind != 1 || 1 < row.a || callers || called || row.b != 0 || row.d != 0
}

// 20: the whole file: no bytes, a row that is not whole, too many rows, or a malformed one.
#[tactic(auto, unfolding(crate::specs::Policy::file_of))]
fn file_verdict(rules: &[u8]) -> Result<usize, Refusal>
    ensures { verdict_of result ≡ file_of rules.now }
{
    let bytes = rules.len();
    if bytes == 0 || bytes % format::ROW_BYTES != 0 || format::ROW_BYTES * MAX_RULES < bytes {
        return Err(Reason::BadRules.at(0));
    }
    let n = bytes / format::ROW_BYTES;
    for i in 0..n {
        if bad_rule(rules, i) {
            return Err(Reason::BadRules.at(i));
        }
    }
    Ok(n)
}

// Paints the pairs from one to before another.
fn paint(grid: &mut [Standing; 256], from: usize, to: usize, allow: bool)
    requires { to ≤ length grid.old }
    ensures { grid.new ≡ painted_from from to allow grid.old }
{
    for k in from..to {
        grid[k] = grid[k].painted(allow);
    }
}

// Paints the pairs that stand under rule row i.
fn paint_rule(rules: &[u8], i: usize, grid: &mut [Standing; 256])
    requires { (i < row_count rules.now) × (bad_rule rules.now i ≡ false) }
    ensures { grid.new ≡ painted_by rules.now i grid.old }
{
    let o = format::ROW_BYTES * i;
    let allow = rules[o + 1] == 1;
    let first = usize::from(rules[o + 4]);
    let last = usize::from(rules[o + 5]);
    let from = usize::from(rules[o + 6]);
    let to = usize::from(rules[o + 7]) + 1;
    for c in first..last + 1 {
        paint(grid, 16 * c + from, 16 * c + to, allow);
    }
}

// How each pair stands under the rows of a file that is not malformed.
fn grid_of(rules: &[u8]) -> [Standing; 256]
    requires { file_of rules.now ≡ Accepted (row_count rules.now) }
    ensures { result ≡ grid_of rules.now }
{
    let mut grid = [Standing::Unruled; PAIRS];
    for i in 0..rules.len() / format::ROW_BYTES {
        paint_rule(rules, i, &mut grid);
    }
    grid
}

// Whether pair k is one of modules that are there and stands under no row, or under several.
#[tactic(auto, unfolding(crate::specs::code::Grid::unruled_in))]
fn is_unruled(grid: &[Standing; 256], modules: usize, k: usize) -> bool
    requires { k < length grid.now }
    ensures { result ≡ unruled_in grid.now modules k }
{
    k / 16 < modules
        && k % 16 < modules
        && !matches!(grid[k], Standing::Forbidden | Standing::Allowed)
}

// 21: the pairs of modules that are there.
fn pairs_verdict(grid: &[Standing; 256], modules: usize) -> Result<usize, Refusal>
    ensures { verdict_of result ≡ pairs_in grid.now modules }
{
    for k in 0..16 * modules.min(16) {
        if is_unruled(grid, modules, k) {
            return Err(Reason::UnruledPair.at(k));
        }
    }
    Ok(PAIRS)
}

// Whether a module may call another.
#[tactic(auto, unfolding(crate::specs::code::Grid::permits_in))]
fn may_call(grid: &[Standing; 256], caller: u16, called: u16) -> bool
    ensures { result ≡ permits_in grid.now caller called }
{
    caller < 16
        && called < 16
        && matches!(
            grid[16 * usize::from(caller) + usize::from(called)],
            Standing::Allowed
        )
}

// 22: the instructions of procedure `own`, whose code is the part `code`.
fn judge_code(
    code: &[u8],
    grid: &[Standing; 256],
    own: ProcedureEntry,
    index: Index,
) -> Result<usize, Refusal>
    ensures { verdict_of result ≡ code_verdict (forbidden_in grid.now code.now index own) own.code (row_count code.now) }
{
    let n = code.len() / format::ROW_BYTES;
    for i in 0..n {
        let row = table::row_at(code, i);
        if row.a == format::CALL {
            let callee = declarations::procedure_in(&index, row.b as usize);
            if !may_call(grid, own.owner, callee.owner) {
                return Err(Reason::ForbiddenCall.at(usize::from(own.code) + i));
            }
        }
    }
    Ok(n)
}

// 22: the Calls of a table, reached or not.
fn calls_verdict(table: &[u8], grid: &[Standing; 256], index: Index) -> Result<usize, Refusal>
    ensures { verdict_of result ≡ calls_in grid.now index table.now }
{
    for p in 0..index.procedures.min(format::MAX_PROCEDURES) {
        let own = index.procedure_entries[p];
        let code = table::procedures::part(table, usize::from(own.code), usize::from(own.end));
        judge_code(code, grid, own, index)?;
    }
    Ok(table.len() / format::ROW_BYTES)
}

// Judges a table, with a given index, under a rule file: the file, then its pairs, then the table's Calls.
pub fn rules_with(table: &[u8], rules: &[u8], index: Index) -> Result<usize, Refusal>
    ensures { verdict_of result ≡ rules_with rules.now index table.now }
{
    file_verdict(rules)?;
    let grid = grid_of(rules);
    pairs_verdict(&grid, index.modules)?;
    calls_verdict(table, &grid, index)
}
