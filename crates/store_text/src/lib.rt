// The lines of the store (document 01, "Running"), written into a lent buffer.
#![tactic(auto)]

ghost use Rattle.std.specs.Prelude.{◌≡◌, ◌≤◌, [], ◌∷◌, ◌++◌, map, length};
ghost use Rattle.semantics.specs.Ascii.{ascii};
ghost use Rattle.semantics.specs.Text.{decimal, spaced};
ghost use Rattle.text.specs.code.Placing.{Puts};
ghost use Rattle.state.specs.code.Cells.{cells_of};
ghost use Rattle.machine.specs.code.Lists.{mvalues, mfields, mentry_line, mentry_lines, min_order};
ghost use Rattle.machine.specs.code.Views.{rooms_in, entry_in, entries_in};

use state::{Operand, entries, rooms};
use table::format;
use text::Writer;

mod order;

// Puts a space, an opening parenthesis and a record's type.
fn put_type(writer: &mut Writer<'_>, kind: u8)
    ensures { Puts writer.old (spaced (ascii "(" ++ decimal kind)) writer.new }
{
    writer.put_word(b" (");
    writer.put_decimal(u64::from(kind));
}

// Puts what a field holds: a number, or a nested record, its fields down to `depth` levels.
#[cycle(put_fields_put_operand)]
fn put_operand(writer: &mut Writer<'_>, cells: &[u64], depth: usize, x: Operand)
    ensures { Puts writer.old (mvalues (mfields depth (rooms_in (cells_of cells.now))) (x ∷ [])) writer.new }
{
    match x {
        Operand::Empty | Operand::Refer(_) => {}
        Operand::Number(n) => writer.put_number(n),
        Operand::Record(serial, room, kind) => {
            put_type(writer, kind);
            put_fields(writer, cells, depth, serial, room);
            writer.put_byte(b')');
        }
    }
}

// Puts the fields of the record with this serial number, if it is in the room, down to `depth` levels.
#[cycle(put_fields_put_operand)]
fn put_fields(writer: &mut Writer<'_>, cells: &[u64], depth: usize, serial: u32, room: u8)
    ensures { Puts writer.old (mfields depth (rooms_in (cells_of cells.now)) serial room) writer.new }
{
    if depth == 0 || 128 <= room || !rooms::is_live(cells, serial, room) {
        return;
    }
    let o = rooms::room_cell(room) as usize;
    let n = state::second_at(cells, o) as usize;
    for j in 0..n {
        put_operand(writer, cells, depth - 1, state::cell(cells, o + 1 + j));
    }
}

// Puts the line of entry i.
fn put_entry(writer: &mut Writer<'_>, cells: &[u64], i: u8)
    ensures { Puts writer.old (mentry_line (rooms_in (cells_of cells.now)) (entry_in (cells_of cells.now) i)) writer.new }
{
    let o = entries::entry_cell(i) as usize;
    writer.put_word(b"store");
    writer.put_number(u64::from(state::third_at(cells, o + 1)));
    writer.put_number(state::number_at(cells, o));
    put_fields(
        writer,
        cells,
        format::MAX_TYPES,
        state::first_at(cells, o + 1),
        state::second_at(cells, o + 1),
    );
    writer.put_byte(b'\n');
}

// Puts the lines of entries, by their numbers.
fn put_lines(writer: &mut Writer<'_>, cells: &[u64], numbers: &[u8])
    ensures { Puts writer.old (mentry_lines (rooms_in (cells_of cells.now)) (map (entry_in (cells_of cells.now)) numbers.now)) writer.new }
{
    for i in numbers {
        put_entry(writer, cells, *i);
    }
}

// Puts the lines of the first `count` entries, in order.
pub fn put_entries(writer: &mut Writer<'_>, cells: &[u64], count: u8)
    ensures { Puts writer.old (min_order (rooms_in (cells_of cells.now)) (entries_in (cells_of cells.now) count)) writer.new }
{
    let mut room = [0u8; 255];
    let numbers = &mut room[..count as usize];
    order::sort(cells, numbers);
    put_lines(writer, cells, numbers);
}
