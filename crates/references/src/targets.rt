// ReadRef, WriteRef and BorrowFld: where a reference leads, and what is done there.
ghost use Rattle.std.specs.Prelude.{◌≡◌};
ghost use Rattle.state.specs.code.Cells.{cells_of, held_at};
ghost use Rattle.state.specs.code.Rooms.{field_cell};
ghost use Rattle.frame.specs.code.Turning.{after};
ghost use Rattle.references.specs.code.Targets.{place_of, local_of, local_in, in_room, in_local, in_field, target_of, target_top, read_of, write_of, borrowed_as, borrow_field_of};

use state::frames::State;
use state::stops::Stop;
use state::{Operand, Reference, rooms};

// Where a reference leads: to a number in a cell, or to the record with this serial number in a room. A reference that leads nowhere is a stop: what
// it led to is gone, or no reference leads there.
#[derive(Clone, Copy)]
pub enum Place {
    Number(u16),
    Record(u32, u8),
}

// The cell of local l of frame f at depth d, if the frame with this serial number and so many locals is that one and has such a local.
fn local_of(serial: u32, f: u32, count: u8, d: u8, l: u8) -> Option<u16>
    ensures { result ≡ local_of serial f count d l }
{
    if serial == f && l < count {
        return Some(32 * (d as u16) + 16 + (l as u16));
    }
    None
}

// The cell of local l of frame f at depth d, if that frame has not returned and has such a local.
fn local_cell(s: State, cells: &[u64], f: u32, d: u8, l: u8) -> Option<u16>
    ensures { result ≡ local_in (cells_of cells.now) s f d l }
{
    if d == s.depth {
        return local_of(s.serial, f, s.count, d, l);
    }
    if d < s.depth {
        let o = state::frames::suspended_cell(d);
        return local_of(
            state::first_at(cells, o),
            f,
            state::third_at(cells, o),
            d,
            l,
        );
    }
    None
}

fn in_room(cells: &[u64], s: u32, m: u8) -> Result<Place, Stop>
    ensures { result ≡ place_of (in_room (cells_of cells.now) s m) }
{
    if rooms::is_live(cells, s, m) {
        return Ok(Place::Record(s, m));
    }
    Err(Stop::StaleReference)
}

fn in_local(cells: &[u64], o: Option<u16>) -> Result<Place, Stop>
    ensures { result ≡ place_of (in_local (cells_of cells.now) o) }
{
    let Some(o) = o else {
        return Err(Stop::StaleReference);
    };
    match state::cell(cells, o as usize) {
        Operand::Empty => Err(Stop::StaleReference),
        Operand::Number(_) => Ok(Place::Number(o)),
        Operand::Record(s, m, _) => in_room(cells, s, m),
        Operand::Refer(_) => Err(Stop::Broken),
    }
}

fn in_field(cells: &[u64], s: u32, m: u8, j: u8) -> Result<Place, Stop>
    ensures { result ≡ place_of (in_field (cells_of cells.now) s m j) }
{
    if !rooms::is_live(cells, s, m) {
        return Err(Stop::StaleReference);
    }
    match rooms::field_cell(cells, m, j) {
        Some(o) if state::is_number(cells, o as usize) => Ok(Place::Number(o)),
        _ => Err(Stop::Broken),
    }
}

// Where a reference leads.
fn target_of(s: State, cells: &[u64], r: Reference) -> Result<Place, Stop>
    ensures { result ≡ place_of (target_of (cells_of cells.now) s r) }
{
    match r {
        Reference::Local(f, d, l, _) => in_local(cells, local_cell(s, cells, f, d, l)),
        Reference::Field(c, m, _, j) => in_field(cells, c, m, j),
        Reference::Record(c, m, _) => in_room(cells, c, m),
    }
}

// Where the top operand leads, which is a reference.
fn target_top(s: State, cells: &[u64]) -> Result<Place, Stop>
    ensures { result ≡ place_of (target_top (cells_of cells.now) s) }
{
    match s.top(cells, 0) {
        Operand::Empty | Operand::Number(_) | Operand::Record(_, _, _) => Err(Stop::Broken),
        Operand::Refer(r) => target_of(s, cells, r),
    }
}

// ReadRef.
#[tactic(auto, unfolding(state::specs::code::Coding::value_of, state::specs::code::Coding::values))]
pub fn read_ref(s: State, cells: &mut [u64]) -> State
    ensures { after result (cells_of cells.new) ≡ read_of (cells_of cells.old) s }
{
    match target_top(s, cells) {
        Ok(Place::Number(o)) => {
            let n = state::number_at(cells, o as usize);
            frame::operations::settle(s, cells, 1, state::NUMBER, n)
        }
        Ok(Place::Record(_, _)) => s.ended(Stop::Broken),
        Err(stop) => s.ended(stop),
    }
}

// WriteRef.
#[tactic(auto, unfolding(state::specs::code::Coding::value_of, state::specs::code::Coding::values))]
pub fn write_ref(s: State, cells: &mut [u64]) -> State
    ensures { after result (cells_of cells.new) ≡ write_of (cells_of cells.old) s }
{
    if !s.has_number(cells, 1) {
        return s.ended(Stop::Broken);
    }
    match target_top(s, cells) {
        Ok(Place::Number(o)) => {
            state::put(cells, o as usize, state::NUMBER, s.number(cells, 1));
            s.drop_top(2).next()
        }
        Ok(Place::Record(_, _)) => s.ended(Stop::Broken),
        Err(stop) => s.ended(stop),
    }
}

// A reference to what field j of the record c of type y in room m holds.
fn borrow_held(s: State, cells: &mut [u64], c: u32, m: u8, y: u8, j: u8) -> State
    ensures { after result (cells_of cells.new) ≡ borrowed_as (cells_of cells.old) s c m y j (held_at (cells_of cells.old) (field_cell (cells_of cells.old) m j)) }
{
    let Some(o) = rooms::field_cell(cells, m, j) else {
        return s.ended(Stop::Broken);
    };
    if state::is_number(cells, o as usize) {
        let w = state::field_word(c, m, y, j);
        return frame::operations::settle(s, cells, 1, state::TO_FIELD, w);
    }
    if state::is_record(cells, o as usize) {
        let w = state::record_at(cells, o as usize);
        return frame::operations::settle(s, cells, 1, state::TO_RECORD, w);
    }
    s.ended(Stop::Broken)
}

// BorrowFld.
pub fn borrow_field(s: State, cells: &mut [u64], b: u16) -> State
    ensures { after result (cells_of cells.new) ≡ borrow_field_of (cells_of cells.old) s b }
{
    match target_top(s, cells) {
        Ok(Place::Number(_)) => s.ended(Stop::Broken),
        Ok(Place::Record(c, m)) => borrow_held(s, cells, c, m, (b / 8 % 256) as u8, (b % 8) as u8),
        Err(stop) => s.ended(stop),
    }
}
