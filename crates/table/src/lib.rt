// The table of rows: its bytes as rows, what a judgement answers, an index of modules, types and procedures, and a procedure's rows as a part of the table.
#![tactic(auto)]

ghost use Rattle.std.specs.Prelude.{◌≡◌, ◌+◌, ◌*◌, ◌≤◌, ◌<◌, length};
ghost use Rattle.table.specs.Rows.{row_at, kind_at};

pub mod format;
pub mod index;
pub mod procedures;
pub mod refusals;

// One row: kind, A, B, C and D.
#[derive(Clone, Copy)]
pub struct Row {
    pub kind: u8,
    pub a: u8,
    pub b: u16,
    pub c: u32,
    pub d: u64,
}

impl Row {
    // What stands for a row that is not there.
    pub const BLANK: Row = Row {
        kind: 0,
        a: 0,
        b: 0,
        c: 0,
        d: 0,
    };
}

// Row i of the table, or the blank row where there is no whole row i.
pub fn row_at(table: &[u8], i: usize) -> Row
    ensures { result ≡ row_at table.now i }
{
    if i < table.len() / format::ROW_BYTES {
        let o = format::ROW_BYTES * i;
        Row {
            kind: table[o],
            a: table[o + 1],
            b: u16::from_le_bytes([table[o + 2], table[o + 3]]),
            c: u32::from_le_bytes([table[o + 4], table[o + 5], table[o + 6], table[o + 7]]),
            d: u64::from_le_bytes([
                table[o + 8],
                table[o + 9],
                table[o + 10],
                table[o + 11],
                table[o + 12],
                table[o + 13],
                table[o + 14],
                table[o + 15],
            ]),
        }
    } else {
        Row::BLANK
    }
}

// The kind of row i, or 0 where there is no whole row i.
pub fn kind_at(table: &[u8], i: usize) -> u8
    ensures { result ≡ kind_at table.now i }
{
    if i < table.len() / format::ROW_BYTES {
        table[format::ROW_BYTES * i]
    } else {
        0
    }
}
