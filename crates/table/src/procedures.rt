// A procedure's rows, handed back as a part of the caller's table. It takes any bytes and any number.
ghost use Rattle.std.specs.Prelude.{◌≡◌};
ghost use Rattle.table.specs.Procedures.{part_of, part_start, place_in, procedure_row, procedure_end, procedure_rows, procedure_start};

use crate::format;

// The rows from `from` to before `to`; an empty part where the two do not lie in the table in this order.
pub fn part<'a>(table: &'a [u8], from: usize, to: usize) -> &'a [u8]
    ensures result_value { result.now ≡ part_of table.now from to }
    ensures ref_ptr_value { result.ref_ptr ≡ place_in table.entry.ref_ptr (part_start table.now from to) }
{
    let n = table.len() / format::ROW_BYTES;
    if from <= to && to <= n {
        let start = format::ROW_BYTES * from;
        let end = format::ROW_BYTES * to;
        return &table[start..end];
    }
    &table[0..0]
}

// The row of procedure p, or the number of rows where there is none.
pub fn procedure_row(table: &[u8], p: usize) -> usize
    ensures { result ≡ procedure_row table.now p }
{
    let n = table.len() / format::ROW_BYTES;
    let mut left = p;
    for i in 0..n {
        if crate::kind_at(table, i) == format::PROCEDURE {
            if left == 0 {
                return i;
            }
            left -= 1;
        }
    }
    n
}

// The first row from start on that starts a module or a procedure, or the number of rows; start where it is past them.
pub fn procedure_end(table: &[u8], start: usize) -> usize
    ensures { result ≡ procedure_end table.now start }
{
    let n = table.len() / format::ROW_BYTES;
    for i in start..n {
        let kind = crate::kind_at(table, i);
        if kind == format::MODULE || kind == format::PROCEDURE {
            return i;
        }
    }
    n.max(start)
}

// The rows of procedure p; an empty part where there is no such procedure.
pub fn procedure_rows<'a>(table: &'a [u8], p: usize) -> &'a [u8]
    ensures result_value { result.now ≡ procedure_rows table.now p }
    ensures ref_ptr_value { result.ref_ptr ≡ place_in table.entry.ref_ptr (procedure_start table.now p) }
{
    let n = table.len() / format::ROW_BYTES;
    let row = procedure_row(table, p);
    if row < n {
        part(table, row, procedure_end(table, row + 1))
    } else {
        &table[0..0]
    }
}
