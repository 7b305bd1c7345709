// MoveTo, MoveFrom, BorrowGlobal and Exists.
ghost use Rattle.std.specs.Prelude.{◌≡◌};
ghost use Rattle.state.specs.code.Coding.{value_of, number_of};
ghost use Rattle.state.specs.code.Cells.{cells_of};
ghost use Rattle.state.specs.code.Frames.{top_at};
ghost use Rattle.state.specs.code.Layout.{place_below};
ghost use Rattle.frame.specs.code.Turning.{after};
ghost use Rattle.records.specs.code.Published.{with_entries, found, record_at, reference_at, published_as, move_to_of, move_from_of, global_of, exists_of};

use state::frames::State;
use state::stops::Stop;
use state::{Operand, entries};

// The state with n entries in the store.
fn with_entries(mut s: State, n: u8) -> State
    ensures { result ≡ with_entries s n }
{
    s.entries = n;
    s
}

// The entry under type y and the address on top.
fn found(s: State, cells: &[u64], y: u8) -> Option<u8>
    ensures { result ≡ place_below s.entries (found (cells_of cells.now) s y (number_of (top_at (cells_of cells.now) s 0))) }
{
    let i = entries::find(cells, s.entries, y, s.number(cells, 0));
    if i < s.entries { Some(i) } else { None }
}

// The word of the record of entry i, of type y, and of a reference to it.
fn entry_word(cells: &[u64], i: u8, y: u8) -> u64
    ensures { (value_of 2 result ≡ record_at (cells_of cells.now) i y) × (value_of 5 result ≡ reference_at (cells_of cells.now) i y) }
{
    let o = (entries::entry_cell(i) as usize) + 1;
    state::record_word(state::first_at(cells, o), state::second_at(cells, o), y)
}

// The record c in room m published under type y and the address on top.
fn publish(s: State, cells: &mut [u64], y: u8, c: u32, m: u8) -> State
    ensures { after result (cells_of cells.new) ≡ published_as (cells_of cells.old) s y (number_of (top_at (cells_of cells.old) s 0)) c m }
{
    let n = s.entries;
    if found(s, cells, y).is_some() {
        return s.ended(Stop::KeyTaken);
    }
    if entries::ENTRIES <= n {
        return s.ended(Stop::TooManyEntries);
    }
    entries::put_entry(cells, n, y, s.number(cells, 0), c, m);
    with_entries(s, n + 1).drop_top(2).next()
}

// MoveTo.
pub fn move_to(s: State, cells: &mut [u64], b: u16) -> State
    ensures { after result (cells_of cells.new) ≡ move_to_of (cells_of cells.old) s b }
{
    if !s.has_number(cells, 0) {
        return s.ended(Stop::Broken);
    }
    match s.top(cells, 1) {
        Operand::Empty | Operand::Number(_) | Operand::Refer(_) => s.ended(Stop::Broken),
        Operand::Record(c, m, _) => publish(s, cells, (b % 256) as u8, c, m),
    }
}

// MoveFrom.
pub fn move_from(s: State, cells: &mut [u64], b: u16) -> State
    ensures { after result (cells_of cells.new) ≡ move_from_of (cells_of cells.old) s b }
{
    if !s.has_number(cells, 0) {
        return s.ended(Stop::Broken);
    }
    let y = (b % 256) as u8;
    let n = s.entries;
    let Some(i) = found(s, cells, y) else {
        return s.ended(Stop::NoSuchKey);
    };
    let w = entry_word(cells, i, y);
    entries::remove_entry(cells, n, i);
    frame::operations::settle(with_entries(s, n - 1), cells, 1, state::RECORD, w)
}

// BorrowGlobal.
pub fn borrow_global(s: State, cells: &mut [u64], b: u16) -> State
    ensures { after result (cells_of cells.new) ≡ global_of (cells_of cells.old) s b }
{
    if !s.has_number(cells, 0) {
        return s.ended(Stop::Broken);
    }
    let y = (b % 256) as u8;
    let Some(i) = found(s, cells, y) else {
        return s.ended(Stop::NoSuchKey);
    };
    frame::operations::settle(s, cells, 1, state::TO_RECORD, entry_word(cells, i, y))
}

// Exists.
#[tactic(auto, using(state::proofs::Searches::some_place), unfolding(state::specs::code::Coding::value_of, state::specs::code::Coding::values))]
pub fn exists(s: State, cells: &mut [u64], b: u16) -> State
    ensures { after result (cells_of cells.new) ≡ exists_of (cells_of cells.old) s b }
{
    if !s.has_number(cells, 0) {
        return s.ended(Stop::Broken);
    }
    let r = u64::from(found(s, cells, (b % 256) as u8).is_some());
    frame::operations::settle(s, cells, 1, state::NUMBER, r)
}
