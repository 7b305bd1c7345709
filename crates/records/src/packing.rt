// Pack and Unpack.
ghost use Rattle.std.specs.Prelude.{◌≡◌, ◌+◌, ◌-◌};
ghost use Rattle.state.specs.code.Cells.{cells_of};
ghost use Rattle.frame.specs.code.Turning.{after};
ghost use Rattle.records.specs.code.Packing.{packed_state, packed_in, pack_of, unpacked_state, unpacked_from, unpack_of};

use state::frames::State;
use state::stops::Stop;
use state::{Operand, rooms};
use table::index::TypeEntry;

// The state after a record was made in room r.
fn packed(mut s: State, r: u8) -> State
    ensures { result ≡ packed_state s r }
{
    s.records = state::frames::next_serial(s.records);
    if r < 255 {
        s.free = r + 1;
        s.rooms = s.rooms.max(r + 1);
    }
    s
}

// A record of type y made of the k top operands in room r.
fn pack_in(s: State, cells: &mut [u64], k: u8, y: u8, r: u8) -> State
    ensures { after result (cells_of cells.new) ≡ packed_in (cells_of cells.old) s k y r }
{
    let o = rooms::room_cell(r);
    let rest = s.drop_top(k);
    state::move_cells(cells, o + 1, rest.operand_cell(rest.height), k as u16);
    state::put(
        cells,
        o as usize,
        state::RECORD,
        state::record_word(s.records, k, y),
    );
    frame::operations::settle(
        packed(s, r),
        cells,
        k,
        state::RECORD,
        state::record_word(s.records, r, y),
    )
}

// Pack.
pub fn pack(s: State, cells: &mut [u64], named: TypeEntry, b: u16) -> State
    ensures { after result (cells_of cells.new) ≡ pack_of (cells_of cells.old) s (named.end - (named.row + 1)) b }
{
    let Some(r) = rooms::free_room(cells, s.free) else {
        return s.ended(Stop::TooManyRecords);
    };
    pack_in(
        s,
        cells,
        (steps::fields_of(named) % 256) as u8,
        (b % 256) as u8,
        r,
    )
}

// The state after the record in room m was broken up.
fn unpacked(mut s: State, m: u8) -> State
    ensures { result ≡ unpacked_state s m }
{
    s.free = s.free.min(m);
    s
}

// The record c in room m broken up.
fn unpack_from(s: State, cells: &mut [u64], c: u32, m: u8) -> State
    ensures { after result (cells_of cells.new) ≡ unpacked_from (cells_of cells.old) s c m }
{
    if !rooms::is_live(cells, c, m) {
        return s.ended(Stop::Broken);
    }
    let o = rooms::room_cell(m);
    let k = state::second_at(cells, o as usize);
    let next = unpacked(s, m).drop_top(1).receive(cells, o + 1, k);
    state::clear(cells, o as usize);
    next.next()
}

// Unpack.
pub fn unpack(s: State, cells: &mut [u64]) -> State
    ensures { after result (cells_of cells.new) ≡ unpack_of (cells_of cells.old) s }
{
    match s.top(cells, 0) {
        Operand::Empty | Operand::Number(_) | Operand::Refer(_) => s.ended(Stop::Broken),
        Operand::Record(c, m, _) => unpack_from(s, cells, c, m),
    }
}
