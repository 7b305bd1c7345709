// The store's entries: two cells an entry, the address and the record (serial number, room, type). The newest entry is the last.
ghost use Rattle.std.specs.Prelude.{◌≡◌, ◌<◌};
ghost use Rattle.state.specs.code.Cells.{cells_of};
ghost use Rattle.state.specs.code.Layout.{entry_cell};
ghost use Rattle.state.specs.code.Entries.{is_under_at, last_under, added_in, removed_in};

// The most entries.
pub const ENTRIES: u8 = 64;

// The first cell of entry i.
pub fn entry_cell(i: u8) -> u16
    ensures { result ≡ entry_cell i }
{
    544 + 2 * (i as u16)
}

// Whether the entry whose cells begin at cell o is under a key.
fn is_under(cells: &[u64], o: usize, kind: u8, address: u64) -> bool
    requires { o < 65536 }
    ensures { result ≡ is_under_at (cells_of cells.now) o kind address }
{
    crate::number_at(cells, o) == address && crate::third_at(cells, o + 1) == kind
}

// The last of the first n entries that is under a key, n where there is none. No Option and no `for` over `.rev()`: an instruction of Pack to Unpack in a
// full store took 16.1 ns with this loop, 18.2 ns with a `for` and an Option, and 23.8 ns with this loop and an Option.
pub fn find(cells: &[u64], n: u8, kind: u8, address: u64) -> u8
    ensures { result ≡ last_under (cells_of cells.now) kind address n n }
{
    let mut i = n as usize;
    while 0 < i {
        i -= 1;
        if is_under(cells, 544 + 2 * i, kind, address) {
            return i as u8;
        }
    }
    n
}

// Puts an entry in place i.
pub fn put_entry(cells: &mut [u64], i: u8, kind: u8, address: u64, serial: u32, room: u8)
    ensures { cells_of cells.new ≡ added_in (cells_of cells.old) i kind address serial room }
{
    let o = entry_cell(i) as usize;
    crate::put(cells, o, crate::NUMBER, address);
    crate::put(
        cells,
        o + 1,
        crate::RECORD,
        crate::record_word(serial, room, kind),
    );
}

// Takes entry i of n out: those after it move down.
pub fn remove_entry(cells: &mut [u64], n: u8, i: u8)
    ensures { cells_of cells.new ≡ removed_in (cells_of cells.old) n i }
{
    if i < n && n <= ENTRIES {
        crate::move_cells(
            cells,
            entry_cell(i),
            entry_cell(i + 1),
            2 * ((n - 1 - i) as u16),
        );
    }
}
