// The rooms of records: nine cells a room, a head (serial number, how many fields, type; no record where the room is not in use) and eight fields.
ghost use Rattle.std.specs.Prelude.{◌≡◌, ◌-◌, get_or};
ghost use Rattle.state.specs.code.Cells.{cells_of};
ghost use Rattle.state.specs.code.Layout.{room_cell, place_below};
ghost use Rattle.state.specs.code.Rooms.{is_live, field_cell, first_free};
ghost use Rattle.state.specs.declared.Operand.TheVariants.{Empty};

// The most rooms.
pub const ROOMS: u8 = 128;

// The head of room m.
pub fn room_cell(m: u8) -> u16
    ensures { result ≡ room_cell m }
{
    672 + 9 * (m as u16)
}

// Whether record s is in room m.
pub fn is_live(cells: &[u64], s: u32, m: u8) -> bool
    ensures { result ≡ is_live (get_or (cells_of cells.now) (room_cell m) Empty) s }
{
    let o = room_cell(m) as usize;
    crate::is_record(cells, o) && crate::first_at(cells, o) == s
}

// The cell of field j of room m, if the record has such a field.
pub fn field_cell(cells: &[u64], m: u8, j: u8) -> Option<u16>
    ensures { result ≡ field_cell (cells_of cells.now) m j }
{
    let o = room_cell(m);
    if j < crate::second_at(cells, o as usize) {
        return Some(o + 1 + (j as u16));
    }
    None
}

// The first room from room `from` on that is not in use.
pub fn free_room(cells: &[u64], from: u8) -> Option<u8>
    ensures { result ≡ place_below 128 (first_free (cells_of cells.now) from (128 - from)) }
{
    for r in from..ROOMS {
        if !crate::is_record(cells, room_cell(r) as usize) {
            return Some(r);
        }
    }
    None
}
