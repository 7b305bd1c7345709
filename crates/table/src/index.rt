// An index of modules, types and procedures, built in one scan of the table. It takes any bytes.
ghost use Rattle.std.specs.Prelude.{◌≡◌, ◌+◌, ◌-◌, ◌≤◌, ◌<◌};
ghost use Rattle.laws.specs.Lists.{count};
ghost use Rattle.table.specs.Format.{module_kind};
ghost use Rattle.table.specs.Rows.{is_kind};
ghost use Rattle.table.specs.Index.{indexed_rows, run_end, type_at, procedure_at, index_of};

use crate::format;

// A type: its row, the number of its module, and the row after its last field.
#[derive(Clone, Copy)]
pub struct TypeEntry {
    pub row: u16,
    pub owner: u16,
    pub end: u16,
}

// A procedure: its row, the number of its module, the rows where its results and its instructions start, and the row after the last.
#[derive(Clone, Copy)]
pub struct ProcedureEntry {
    pub row: u16,
    pub owner: u16,
    pub results: u16,
    pub code: u16,
    pub end: u16,
}

// How many modules, types and procedures there are, and an entry for each number below its limit.
#[derive(Clone, Copy)]
pub struct Index {
    pub modules: usize,
    pub types: usize,
    pub procedures: usize,
    pub module_rows: [u16; 16],
    pub type_entries: [TypeEntry; 64],
    pub procedure_entries: [ProcedureEntry; 128],
}

impl TypeEntry {
    pub const NONE: TypeEntry = TypeEntry {
        row: 0,
        owner: 0,
        end: 0,
    };
}

impl ProcedureEntry {
    pub const NONE: ProcedureEntry = ProcedureEntry {
        row: 0,
        owner: 0,
        results: 0,
        code: 0,
        end: 0,
    };
}

// The rows that the index covers.
fn indexed_rows(table: &[u8]) -> usize
    ensures { result ≡ indexed_rows table.now }
{
    (table.len() / format::ROW_BYTES).min(format::MAX_ROWS)
}

// The first row from start on, before row n, that is not of this kind.
fn run_end(table: &[u8], n: usize, kind: u8, start: usize) -> usize
    ensures { result ≡ run_end table.now n kind start }
{
    for i in start..n {
        if crate::kind_at(table, i) != kind {
            return i;
        }
    }
    n.max(start)
}

// The number of a module, where m modules begin above.
fn owner_of(m: usize) -> u16
    requires { m ≤ 2048 }
    ensures { result ≡ m - 1 }
{
    m.saturating_sub(1) as u16
}

// The entry of the type at row i of n, below the starts of m modules.
fn type_at(table: &[u8], n: usize, m: usize, i: usize) -> TypeEntry
    requires { (n ≡ indexed_rows table.now) × (i < n) × (m ≡ count (is_kind table.now module_kind) i) }
    ensures { result ≡ type_at table.now i }
{
    let end = run_end(table, n, format::FIELD, i + 1);
    TypeEntry {
        row: i as u16,
        owner: owner_of(m),
        end: end as u16,
    }
}

// The entry of the procedure at row i of n, below the starts of m modules.
fn procedure_at(table: &[u8], n: usize, m: usize, i: usize) -> ProcedureEntry
    requires { (n ≡ indexed_rows table.now) × (i < n) × (m ≡ count (is_kind table.now module_kind) i) }
    ensures { result ≡ procedure_at table.now i }
{
    let results = run_end(table, n, format::LOCAL, i + 1);
    let code = run_end(table, n, format::RESULT, results);
    let end = run_end(table, n, format::INSTRUCTION, code);
    ProcedureEntry {
        row: i as u16,
        owner: owner_of(m),
        results: results as u16,
        code: code as u16,
        end: end as u16,
    }
}

// The index of a table.
pub fn index_of(table: &[u8]) -> Index
    ensures { result ≡ index_of table.now }
{
    let n = indexed_rows(table);
    let mut module_rows = [0u16; 16];
    let mut type_entries = [TypeEntry::NONE; 64];
    let mut procedure_entries = [ProcedureEntry::NONE; 128];
    let mut modules = 0;
    let mut types = 0;
    let mut procedures = 0;
    let mut i = 0;
    // A cursor and no count: it jumps past the rows of each type and procedure, of which a `for` would look at each twice.
    while i < n {
        let kind = crate::kind_at(table, i);
        match kind {
            format::MODULE => {
                if modules < format::MAX_MODULES {
                    module_rows[modules] = i as u16;
                }
                modules += 1;
                i += 1;
            }
            format::TYPE => {
                let entry = type_at(table, n, modules, i);
                if types < format::MAX_TYPES {
                    type_entries[types] = entry;
                }
                types += 1;
                i = entry.end as usize;
            }
            format::PROCEDURE => {
                let entry = procedure_at(table, n, modules, i);
                if procedures < format::MAX_PROCEDURES {
                    procedure_entries[procedures] = entry;
                }
                procedures += 1;
                i = entry.end as usize;
            }
            _ => {
                i += 1;
            }
        }
    }
    Index {
        modules,
        types,
        procedures,
        module_rows,
        type_entries,
        procedure_entries,
    }
}
