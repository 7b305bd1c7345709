// The lines of calls (document 01, "Running"), written into a lent buffer.
#![tactic(auto)]

ghost use Rattle.std.specs.Prelude.{◌≡◌, [], ◌∷◌, ◌++◌, map, ℕ};
ghost use Rattle.semantics.specs.Machine.{State, num, finished, stopped};
ghost use Rattle.semantics.specs.Ascii.{ascii};
ghost use Rattle.semantics.specs.Text.{decimal, spaced, values, call_line};
ghost use Rattle.text.specs.code.Placing.{Puts};

use itoa::Buffer;

// The byte at the end of each line.
const NEWLINE: u8 = b'\n';

// A lent buffer, and the place after the last byte that was put. What is put stands from there on, as far as there is room.
#[derive(Drop)]
pub struct Writer<'a> {
    pub text: &'a mut [u8],
    pub end: usize,
}

impl Writer<'_> {
    // Puts one byte.
    pub fn put_byte(&mut self, b: u8)
        ensures { Puts self.old (b ∷ []) self.new }
    {
        if self.end < self.text.len() {
            self.text[self.end] = b;
            self.end += 1;
        }
    }

    // Puts the bytes of a word.
    pub fn put_word(&mut self, word: &[u8])
        ensures { Puts self.old word.now self.new }
    {
        for b in word {
            self.put_byte(*b);
        }
    }

    // Puts a number in decimal.
    pub fn put_decimal(&mut self, n: u64)
        ensures { Puts self.old (decimal n) self.new }
    {
        self.put_word(Buffer::new().format(n).as_bytes());
    }

    // Puts a space and a number.
    pub fn put_number(&mut self, n: u64)
        ensures { Puts self.old (spaced (decimal n)) self.new }
    {
        self.put_byte(b' ');
        self.put_decimal(n);
    }

    // Puts the beginning of a call's line.
    fn put_call(&mut self, call: usize)
        ensures { Puts self.old (ascii "call" ++ spaced (decimal call)) self.new }
    {
        self.put_word(b"call");
        self.put_number(call as u64);
    }

    // Puts the line of a call that stopped: the stop's number, and the row of the instruction not done.
    pub fn put_stop(&mut self, call: usize, number: u8, row: usize)
        ensures { Puts self.old (call_line call row (stopped number)) self.new }
    {
        self.put_call(call);
        self.put_word(b" stop");
        self.put_number(u64::from(number));
        self.put_word(b" row");
        self.put_number(row as u64);
        self.put_byte(NEWLINE);
    }

    // Puts results, each with a space before it.
    fn put_results(&mut self, results: &[u64])
        ensures { Puts self.old (values (λ (id : ℕ). []) (map num results.now)) self.new }
    {
        for n in results {
            self.put_number(*n);
        }
    }

    // Puts the line of a call that is done, with its results. Neither row nor state stands in it.
    pub fn put_done(&mut self, call: usize, results: &[u64])
        ensures { (row : ℕ) (s : State) → Puts self.old (call_line call row (finished (map num results.now) s)) self.new }
    {
        self.put_call(call);
        self.put_word(b" done");
        self.put_results(results);
        self.put_byte(NEWLINE);
    }
}
