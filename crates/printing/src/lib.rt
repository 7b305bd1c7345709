// What the programs read and print. What is read from a file and printed on standard output no contract can say: of any other reader and writer whose bytes are
// known, the contracts say which of them are taken and written. After an error some of the text may be written, and some of the bytes taken.
#![tactic(auto)]

ghost use Rattle.std.specs.Prelude.{◌≡◌, ℕ, ◌+◌, ◌<◌, ◌≤◌, ◌↔◌, length, take, drop, true, false, Ok, IfOk, OnOk, OnErr, IfSome, IsTrue};
ghost use Rattle.std.specs.Io.KnownBytes.{Appends, Consumes, IsAtEnd, Keeps};
ghost use Rattle.laws.specs.Numbers.{le};
ghost use Rattle.printing.specs.Lines.{verdict_line, printed_of};
ghost use Rattle.printing.specs.Parts.{first_number, first_part, Loses};
ghost use Rattle.table.specs.Verdicts.{told};

use std::io::{ErrorKind, Read, Write};
use std::rt::Files;
use std::{fs, io};
use table::refusals::Told;

// `accepted ROWS` or `refused N row R`, and the end of the line.
pub fn print_verdict<W: Write, R: Told>(out: &mut W, verdict: Result<usize, R>) -> io::Result<()>
    ensures { OnOk result (Appends (W.contents out.old) (W.contents out.new) (verdict_line (told R.tells verdict))) }
{
    match verdict {
        Ok(rows) => writeln!(out, "accepted {rows}"),
        Err(refusal) => {
            let number = refusal.number();
            let row = refusal.row();
            writeln!(out, "refused {number} row {row}")
        }
    }
}

// The text of a run, which stands at the buffer's start, or the line of its refusal.
pub fn print_run<W: Write, R: Told>(
    out: &mut W,
    answer: Result<usize, R>,
    text: &[u8],
) -> io::Result<()>
    ensures { OnOk result (Appends (W.contents out.old) (W.contents out.new) (printed_of (told R.tells answer) text.now)) }
{
    match answer {
        Ok(size) if size <= text.len() => out.write_all(&text[..size]),
        Ok(_) => Ok(()),
        Err(_) => print_verdict(out, answer),
    }
}

// One byte more than the longest table, list of calls and rule file, so that a longer file is refused and not cut.
pub const TABLE: usize = 32769;

pub const LIST: usize = 4097;

pub const RULES: usize = 4097;

// The longest table, list, rule file and buffer of a file of made cases, and the most cases.
pub const MADE_TABLE: usize = 65536;

pub const MADE_LIST: usize = 8192;

pub const MADE_RULES: usize = 8192;

pub const MADE_TEXT: usize = 131072;

pub const MADE_CASES: usize = 100000;

// How often a read that a signal interrupts is asked again.
const TRIES: usize = 1000;

// Fills the buffer from the file of this name, up to the file's end: so many bytes. A missing file has none.
pub fn read_file<R: Files>(rt: &R, name: &str, room: &mut [u8]) -> io::Result<usize>
    ensures { IfOk result (λ n. n ≤ length room.old) }
{
    Ok(read_if_there(rt, name, room)?.unwrap_or(0))
}

// The same, and none where there is no file of the name.
pub fn read_if_there<R: Files>(rt: &R, name: &str, room: &mut [u8]) -> io::Result<Option<usize>>
    ensures { IfOk result (λ got. IfSome got (λ n. n ≤ length room.old)) }
{
    match fs::open(rt, name) {
        Ok(mut file) => Ok(Some(read_on(&mut file, room)?)),
        Err(e) if e.kind() == ErrorKind::NotFound => Ok(None),
        Err(e) => Err(e),
    }
}

// Fills the buffer from the reader, up to its end: so many bytes. Where a read fails, what was read before stands at the buffer's start.
fn read_on<R: Read>(file: &mut R, room: &mut [u8]) -> io::Result<usize>
    ensures fits { IfOk result (λ n. n ≤ length room.old) }
    ensures bytes { IfOk result (λ n. Consumes (R.remaining file.old) (R.remaining file.new) (take n room.new)) }
    ensures end { IfOk result (λ n. n < length room.old → IsAtEnd (R.remaining file.new)) }
    ensures err { OnErr result ((n : ℕ) × Consumes (R.remaining file.old) (R.remaining file.new) (take n room.new)) }
{
    let mut done = 0;
    while done < room.len() {
        let n = read_some(file, &mut room[done..])?;
        if n == 0 {
            return Ok(done);
        }
        done += n;
    }
    Ok(done)
}

// One read, asked again where a signal interrupts it; no bytes at the end.
fn read_some<R: Read>(file: &mut R, room: &mut [u8]) -> io::Result<usize>
    ensures fits { IfOk result (λ n. n ≤ length room.old) }
    ensures bytes { IfOk result (λ n. Consumes (R.remaining file.old) (R.remaining file.new) (take n room.new)) }
    ensures end { IfOk result (λ n. n ≡ 0 → 0 < length room.old → IsAtEnd (R.remaining file.new)) }
    ensures err { OnErr result (Keeps (R.remaining file.old) (R.remaining file.new)) }
{
    for _ in 1..TRIES {
        match file.read(room) {
            Ok(n) => return Ok(n),
            Err(e) => {
                if e.kind() != ErrorKind::Interrupted {
                    return Err(e);
                }
            }
        }
    }
    file.read(room)
}

// Fills the whole buffer from the reader; false where it ends before.
pub fn read_whole<R: Read>(file: &mut R, room: &mut [u8]) -> io::Result<bool>
    ensures whole { IfOk result (λ whole. IfSome (R.remaining file.old)
        (λ xs. IsTrue whole ↔ (length room.old ≤ length xs))) }
    ensures bytes { result ≡ Ok true → IfSome (R.remaining file.old)
        (λ xs. room.new ≡ take (length room.old) xs) }
    ensures rest { OnOk result (Loses (R.remaining file.old) (R.remaining file.new) (length room.old)) }
    ensures end { result ≡ Ok false → IsAtEnd (R.remaining file.new) }
{
    let n = read_on(file, room)?;
    Ok(n == room.len())
}

// The next number of a file, four bytes, lowest first; none where the file ends before.
pub fn next_number<R: Read>(file: &mut R) -> io::Result<Option<usize>>
    ensures number { IfOk result (λ n. IfSome (R.remaining file.old) (λ xs. n ≡ first_number xs)) }
    ensures rest { OnOk result (Loses (R.remaining file.old) (R.remaining file.new) 4) }
{
    let mut head = [0u8; 4];
    if !read_whole(file, &mut head)? {
        return Ok(None);
    }
    Ok(Some(number_of(&head)))
}

// The number of four bytes, lowest first.
fn number_of(head: &[u8; 4]) -> usize
    ensures { result ≡ le head.now 0 4 }
{
    u32::from_le_bytes(*head) as usize
}

// The next part of a file, its length and then its bytes, which are read to the buffer's start: its length. A length above the buffer's says that the part is
// too long for it and not read; there is none where the file ends before.
pub fn next_part<R: Read>(file: &mut R, room: &mut [u8]) -> io::Result<Option<usize>>
    ensures part { IfOk result (λ part. IfSome (R.remaining file.old)
        (λ xs. part ≡ first_part (length room.old) xs)) }
    ensures bytes { IfOk result (λ part. IfSome part (λ n. n ≤ length room.old
        → IfSome (R.remaining file.old) (λ xs. take n room.new ≡ take n (drop 4 xs)))) }
    ensures rest { IfOk result (λ part. IfSome part (λ n. n ≤ length room.old
        → Loses (R.remaining file.old) (R.remaining file.new) (4 + n))) }
{
    let Some(n) = next_number(file)? else {
        return Ok(None);
    };
    if n <= room.len() && !read_whole(file, &mut room[..n])? {
        return Ok(None);
    }
    Ok(Some(n))
}
