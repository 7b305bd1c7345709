// The running frame and the counts of the machine, by value; the frames below it lie in the cells.
ghost use Rattle.std.specs.Prelude.{◌≡◌, ◌+◌, ◌-◌, ◌<◌};
ghost use Rattle.state.specs.code.Coding.{value_of, is_number, number_of};
ghost use Rattle.state.specs.code.Cells.{cells_of};
ghost use Rattle.state.specs.code.Layout.{operand_cell, local_cell, suspended_cell};
ghost use Rattle.state.specs.code.Frames.{pushed, pushed_in, top_at, dropped, gone_to, gone_on, stopped_with, ended_with, loaded_in, cleared_in, stored_in, suspended_in, resumed, entered, entered_in, received, received_in, next_serial};

use crate::Operand;
use crate::stops::Stop;

// Of the running frame: its serial number, its procedure, the instruction that it is at, how many frames are below it, how many operands and how many
// locals it has. How many frames and how many records there have been. Then 0, or the number of why the call ended; how many entries the store has, a number of rooms past
// which none is in use, and one below which all are. The order of the fields is one in which the compiler keeps them in registers.
#[derive(Clone, Copy)]
pub struct State {
    pub serial: u32,
    pub frames: u32,
    pub procedure: u16,
    pub at: u16,
    pub records: u32,
    pub depth: u8,
    pub height: u8,
    pub count: u8,
    pub stop: u8,
    pub entries: u8,
    pub rooms: u8,
    pub free: u8,
}

// The serial number after n.
#[tactic(auto, unfolding(crate::specs::code::Frames::next_serial))]
pub fn next_serial(n: u32) -> u32
    ensures { result ≡ next_serial n }
{
    n.saturating_add(1)
}

// What is left of n without k, 0 where k is more.
pub fn rest(n: u8, k: u8) -> u8
    ensures { result ≡ n - k }
{
    n.saturating_sub(k)
}

// The first of the two cells of the suspended frame at depth d.
pub fn suspended_cell(d: u8) -> usize
    ensures { result ≡ suspended_cell d }
{
    512 + 2 * (d as usize)
}

impl State {
    // Before the first call.
    pub const START: State = State {
        serial: 0,
        procedure: 0,
        at: 0,
        depth: 0,
        height: 0,
        count: 0,
        stop: 0,
        records: 0,
        frames: 0,
        entries: 0,
        rooms: 0,
        free: 0,
    };

    // The cell of operand i from the bottom, and of local l.
    pub fn operand_cell(self, i: u8) -> u16
        ensures { result ≡ operand_cell self.depth + i }
    {
        32 * (self.depth as u16) + (i as u16)
    }

    fn local_cell(self, l: u16) -> usize
        ensures { result ≡ local_cell self.depth + l }
    {
        32 * (self.depth as usize) + 16 + (l as usize)
    }

    // Pushes an operand, where there is room.
    pub fn push(mut self, cells: &mut [u64], tag: u64, w: u64) -> Self
        ensures { (result ≡ pushed self) × (cells_of cells.new ≡ pushed_in (cells_of cells.old) self (value_of tag w)) }
    {
        let h = self.height;
        if h < 16 {
            crate::put(cells, self.operand_cell(h) as usize, tag, w);
            self.height = h + 1;
        }
        self
    }

    // The cell of the operand number k from the top.
    fn top_cell(self, k: u8) -> usize
        requires { k < self.height }
        ensures { result ≡ operand_cell self.depth + (self.height - 1 - k) }
    {
        self.operand_cell(self.height - 1 - k) as usize
    }

    // The operand number k from the top, empty where there are not so many; whether it is a number; the number that it is, else 0.
    pub fn top(self, cells: &[u64], k: u8) -> Operand
        ensures { result ≡ top_at (cells_of cells.now) self k }
    {
        if k < self.height {
            return crate::cell(cells, self.top_cell(k));
        }
        Operand::Empty
    }

    pub fn has_number(self, cells: &[u64], k: u8) -> bool
        ensures { result ≡ is_number (top_at (cells_of cells.now) self k) }
    {
        if k < self.height {
            return crate::is_number(cells, self.top_cell(k));
        }
        false
    }

    pub fn number(self, cells: &[u64], k: u8) -> u64
        ensures { result ≡ number_of (top_at (cells_of cells.now) self k) }
    {
        if k < self.height {
            return crate::number_at(cells, self.top_cell(k));
        }
        0
    }

    // Takes k operands, all where there are not so many.
    pub fn drop_top(mut self, k: u8) -> Self
        ensures { result ≡ dropped self k }
    {
        self.height = rest(self.height, k);
        self
    }

    // At instruction i.
    pub fn go_to(mut self, i: u16) -> Self
        ensures { result ≡ gone_to self i }
    {
        self.at = i;
        self
    }

    // At the next instruction.
    pub fn next(mut self) -> Self
        ensures { result ≡ gone_on self }
    {
        self.at = self.at.saturating_add(1);
        self
    }

    // The call ended, with any number.
    pub fn stopped(mut self, stop: u8) -> Self
        ensures { result ≡ stopped_with self stop }
    {
        self.stop = stop;
        self
    }

    // The call ended so.
    pub fn ended(self, stop: Stop) -> Self
        ensures { result ≡ ended_with self stop }
    {
        self.stopped(stop.number())
    }

    // Pushes what local l holds, empty where there is no such local, where there is room.
    pub fn load(mut self, cells: &mut [u64], l: u16) -> Self
        ensures { (result ≡ pushed self) × (cells_of cells.new ≡ loaded_in (cells_of cells.old) self l) }
    {
        let h = self.height;
        if 16 <= h {
            return self;
        }
        let o = self.operand_cell(h) as usize;
        self.height = h + 1;
        if l < (self.count as u16) {
            crate::copy(cells, o, self.local_cell(l));
            return self;
        }
        crate::clear(cells, o);
        self
    }

    // Empties local l, if there is one.
    pub fn clear(self, cells: &mut [u64], l: u16)
        ensures { cells_of cells.new ≡ cleared_in (cells_of cells.old) self l }
    {
        if l < (self.count as u16) {
            crate::clear(cells, self.local_cell(l));
        }
    }

    // Moves the top operand to local l, if there are both.
    pub fn store(self, cells: &mut [u64], l: u16) -> Self
        ensures { (result ≡ dropped self 1) × (cells_of cells.new ≡ stored_in (cells_of cells.old) self l) }
    {
        let next = self.drop_top(1);
        if 0 < self.height && l < (self.count as u16) {
            crate::copy(cells, self.local_cell(l), self.top_cell(0));
        }
        next
    }

    // Writes the running frame into its two cells among those of suspended frames.
    pub fn suspend(self, cells: &mut [u64])
        ensures { cells_of cells.new ≡ suspended_in (cells_of cells.old) self }
    {
        let o = suspended_cell(self.depth);
        crate::put(
            cells,
            o,
            crate::RECORD,
            crate::record_word(self.serial, self.height, self.count),
        );
        crate::put(
            cells,
            o + 1,
            crate::NUMBER,
            65536 * (self.procedure as u64) + (self.at as u64),
        );
    }

    // The suspended frame below runs again.
    pub fn resume(mut self, cells: &[u64]) -> Self
        ensures { result ≡ resumed (cells_of cells.now) self }
    {
        if self.depth == 0 {
            return self;
        }
        let d = self.depth - 1;
        let o = suspended_cell(d);
        let n = crate::number_at(cells, o + 1);
        self.serial = crate::first_at(cells, o);
        self.procedure = (n / 65536 % 65536) as u16;
        self.at = (n % 65536) as u16;
        self.depth = d;
        self.height = crate::second_at(cells, o);
        self.count = crate::third_at(cells, o);
        self
    }

    // A frame of a procedure that has `count` locals begins above the running one, whose k operands above the top are its first locals.
    pub fn enter(mut self, cells: &mut [u64], procedure: u16, k: u8, count: u8) -> Self
        ensures { (result ≡ entered self procedure count) × (cells_of cells.new ≡ entered_in (cells_of cells.old) self k count) }
    {
        let d = self.depth;
        let base = 32 * (d as u16);
        crate::empty_cells(cells, base + 48 + (k as u16), rest(count, k) as u16);
        crate::move_cells(cells, base + 48, base + (self.height as u16), k as u16);
        self.serial = self.frames;
        self.procedure = procedure;
        self.at = 0;
        self.height = 0;
        self.count = count;
        self.frames = next_serial(self.frames);
        self.depth = d.saturating_add(1);
        self
    }

    // Pushes what k cells hold, the first first, where there is room for all.
    pub fn receive(mut self, cells: &mut [u64], from: u16, k: u8) -> Self
        ensures { (result ≡ received self k) × (cells_of cells.new ≡ received_in (cells_of cells.old) self from k) }
    {
        let h = self.height;
        if h <= 16 && k <= 16 - h {
            crate::move_cells(cells, self.operand_cell(h), from, k as u16);
            self.height = h + k;
        }
        self
    }
}
