// The machine's state: numbers by value, and cells in a lent array of numbers. A cell is two numbers, a tag and a word (specs/code/Coding); which cell holds
// what is said in specs/code/Layout. The state and the cells are two parameters of each function, and no struct: the state is a small value that is handed on
// in registers, and in a struct behind a reference it would lie in memory.
#![tactic(auto)]

ghost use Rattle.std.specs.Prelude.{◌≡◌, get_or, set};
ghost use Rattle.state.specs.code.Coding.{packed, Small, value_of, is_number, is_record, number_of, first_of, second_of, third_of};
ghost use Rattle.state.specs.code.Cells.{cells_of, has_tag, word_in, copied, moved, emptied};
ghost use Rattle.state.specs.declared.Operand.TheVariants.{Empty, Number, Record, Refer};
ghost use Rattle.state.specs.declared.Reference.TheVariants.{Local, Field, Record as Whole};

pub mod entries;
pub mod frames;
pub mod rooms;
pub mod stops;

// A reference to a local: its frame's serial number and depth, the local and its kind; to a number field: its record's serial number, room and
// type, and the field; to a record: its serial number, room and type.
#[derive(Clone, Copy)]
pub enum Reference {
    Local(u32, u8, u8, u16),
    Field(u32, u8, u8, u8),
    Record(u32, u8, u8),
}

// What a cell holds: nothing, a number, a record (serial number, room and type), or a reference.
#[derive(Clone, Copy)]
pub enum Operand {
    Empty,
    Number(u64),
    Record(u32, u8, u8),
    Refer(Reference),
}

// The tags of cells. They are numbers and no enum, since a cell is read as whatever number lies in the lent array: `value_of` and `copy` take each.
pub const EMPTY: u64 = 0;

pub const NUMBER: u64 = 1;

pub const RECORD: u64 = 2;

pub const TO_LOCAL: u64 = 3;

pub const TO_FIELD: u64 = 4;

pub const TO_RECORD: u64 = 5;

// Four numbers in a word.
fn packed(s: u32, m: u8, y: u8, k: u16) -> u64
    ensures { (result ≡ packed s m y k) × Small s m y k }
{
    4294967296 * (s as u64) + 16777216 * (m as u64) + 65536 * (y as u64) + (k as u64)
}

// The words of references, that of a record also as the word of the record.
pub fn record_word(s: u32, m: u8, y: u8) -> u64
    ensures { (value_of 2 result ≡ Record s m y) × (value_of 5 result ≡ Refer (Whole s m y)) }
{
    packed(s, m, y, 0)
}

pub fn local_word(s: u32, d: u8, l: u8, k: u16) -> u64
    ensures { value_of 3 result ≡ Refer (Local s d l k) }
{
    packed(s, d, l, k)
}

pub fn field_word(s: u32, m: u8, y: u8, j: u8) -> u64
    ensures { value_of 4 result ≡ Refer (Field s m y j) }
{
    packed(s, m, y, j as u16)
}

// What a tag and a word stand for.
#[tactic(auto, unfolding(crate::specs::code::Coding::value_of, crate::specs::code::Coding::values))]
pub fn value_of(tag: u64, w: u64) -> Operand
    ensures { result ≡ value_of tag w }
{
    let s = (w / 4294967296) as u32;
    let m = (w / 16777216 % 256) as u8;
    let y = (w / 65536 % 256) as u8;
    match tag {
        1 => Operand::Number(w),
        2 => Operand::Record(s, m, y),
        3 => Operand::Refer(Reference::Local(s, m, y, (w % 65536) as u16)),
        4 => Operand::Refer(Reference::Field(s, m, y, (w % 256) as u8)),
        5 => Operand::Refer(Reference::Record(s, m, y)),
        _ => Operand::Empty,
    }
}

// What cell o holds.
pub fn cell(cells: &[u64], o: usize) -> Operand
    ensures { result ≡ get_or (cells_of cells.now) o Empty }
{
    if o < cells.len() / 2 {
        let at = 2 * o;
        return value_of(cells[at], cells[at + 1]);
    }
    Operand::Empty
}

// Whether cell o has this tag.
fn has_tag(cells: &[u64], o: usize, tag: u64) -> bool
    ensures { result ≡ has_tag cells.now o tag }
{
    o < cells.len() / 2 && cells[2 * o] == tag
}

// Whether a number is in cell o; whether a record is.
pub fn is_number(cells: &[u64], o: usize) -> bool
    ensures { result ≡ is_number (get_or (cells_of cells.now) o Empty) }
{
    has_tag(cells, o, NUMBER)
}

pub fn is_record(cells: &[u64], o: usize) -> bool
    ensures { result ≡ is_record (get_or (cells_of cells.now) o Empty) }
{
    has_tag(cells, o, RECORD)
}

// The word of cell o if it has this tag, else 0.
fn word_at(cells: &[u64], o: usize, tag: u64) -> u64
    ensures { result ≡ word_in cells.now o tag }
{
    if o < cells.len() / 2 && cells[2 * o] == tag {
        return cells[2 * o + 1];
    }
    0
}

// The number in cell o, 0 where there is none.
pub fn number_at(cells: &[u64], o: usize) -> u64
    ensures { result ≡ number_of (get_or (cells_of cells.now) o Empty) }
{
    word_at(cells, o, NUMBER)
}

// The word of the record in cell o, as that of a reference to it.
pub fn record_at(cells: &[u64], o: usize) -> u64
    ensures { value_of 5 result ≡ Refer (Whole (first_of (get_or (cells_of cells.now) o Empty)) (second_of (get_or (cells_of cells.now) o Empty)) (third_of (get_or (cells_of cells.now) o Empty))) }
{
    word_at(cells, o, RECORD)
}

// The three numbers of the record in cell o, 0 where there is none.
pub fn first_at(cells: &[u64], o: usize) -> u32
    ensures { result ≡ first_of (get_or (cells_of cells.now) o Empty) }
{
    (word_at(cells, o, RECORD) / 4294967296) as u32
}

pub fn second_at(cells: &[u64], o: usize) -> u8
    ensures { result ≡ second_of (get_or (cells_of cells.now) o Empty) }
{
    (word_at(cells, o, RECORD) / 16777216 % 256) as u8
}

pub fn third_at(cells: &[u64], o: usize) -> u8
    ensures { result ≡ third_of (get_or (cells_of cells.now) o Empty) }
{
    (word_at(cells, o, RECORD) / 65536 % 256) as u8
}

// Puts a tag and a word into cell o.
pub fn put(cells: &mut [u64], o: usize, tag: u64, w: u64)
    ensures { cells_of cells.new ≡ set (cells_of cells.old) o (value_of tag w) }
{
    if o < cells.len() / 2 {
        let at = 2 * o;
        cells[at] = tag;
        cells[at + 1] = w;
    }
}

// Empties cell o: its word stays.
pub fn clear(cells: &mut [u64], o: usize)
    ensures { cells_of cells.new ≡ set (cells_of cells.old) o Empty }
{
    if o < cells.len() / 2 {
        cells[2 * o] = EMPTY;
    }
}

// Puts what cell p holds into cell o.
pub fn copy(cells: &mut [u64], o: usize, p: usize)
    ensures { cells_of cells.new ≡ copied (cells_of cells.old) o p }
{
    if p < cells.len() / 2 {
        let at = 2 * p;
        let tag = cells[at];
        let w = cells[at + 1];
        put(cells, o, tag, w);
    }
}

// Puts what the k cells from `from` on hold into those from `to` on, the first first.
pub fn move_cells(cells: &mut [u64], to: u16, from: u16, k: u16)
    ensures { cells_of cells.new ≡ moved (cells_of cells.old) to from k }
{
    for j in 0..k as usize {
        copy(cells, to as usize + j, from as usize + j);
    }
}

// Empties the k cells from `at` on.
pub fn empty_cells(cells: &mut [u64], at: u16, k: u16)
    ensures { cells_of cells.new ≡ emptied (cells_of cells.old) at k }
{
    for j in 0..k as usize {
        clear(cells, at as usize + j);
    }
}
