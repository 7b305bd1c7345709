// Running a list of calls over a table: the table, under a rule file where there is one, the list and the buffer are judged first, and only then is
// anything run.
#![tactic(auto)]

ghost use Rattle.std.specs.Prelude.{◌≡◌, option_copied};
ghost use Rattle.table.specs.Verdicts.{verdict_of};
ghost use Rattle.semantics.specs.Run.{run_by};
ghost use Rattle.text.specs.code.Placing.{placed, Puts};
ghost use Rattle.state.specs.code.Cells.{cells_of};
ghost use Rattle.running.specs.code.Lists.{results_in, end_line, line_of, text_in};

use interpreter::Ran;
use state::frames::State;
use state::stops::Stop;
use table::format;
use table::index::Index;
use table::refusals::{Reason, Refusal};
use text::Writer;

// The shortest buffer for a text.
pub const MIN_TEXT: usize = 65536;

// The results of a call that is done: the k top operands of its first frame, at most four.
fn results_of(s: State, cells: &[u64], k: usize) -> [u64; 4]
    ensures { result ≡ results_in (cells_of cells.now) s k }
{
    let h = s.height as usize;
    if h < k {
        return [0u64; 4];
    }
    let first = h - k;
    [
        state::number_at(cells, first),
        state::number_at(cells, first + 1),
        state::number_at(cells, first + 2),
        state::number_at(cells, first + 3),
    ]
}

// Puts the line of a call that ended so: it is done with its results, or it stopped at a row.
fn put_end(
    writer: &mut Writer<'_>,
    call: usize,
    stop: u8,
    row: usize,
    results: [u64; 4],
    count: usize,
)
    ensures { Puts writer.old (end_line call stop row results count) writer.new }
{
    if stop == Stop::Done.number() {
        writer.put_done(call, &results[..count.min(4)]);
    } else if stop != Stop::Broken.number() {
        writer.put_stop(call, stop, row);
    }
}

// Puts the line of the call that ended in a state.
fn put_call(writer: &mut Writer<'_>, call: usize, s: State, cells: &[u64], index: Index)
    ensures { Puts writer.old (line_of index call (cells_of cells.now) s) writer.new }
{
    let own = declarations::procedure_in(&index, s.procedure as usize);
    let count = steps::results_of(own) as usize;
    let results = results_of(s, cells, count);
    let row = (own.code as usize) + (s.at as usize);
    put_end(writer, call, s.stop, row, results, count);
}

// Runs the calls of a list over a table and puts their text; the place after it.
fn run_calls(table: &[u8], list: &[u8], index: Index, text: &mut [u8]) -> usize
    ensures { (text.new ≡ (placed text.old 0 (text_in table.now index list.now)).buffer) × (result ≡ (placed text.old 0 (text_in table.now index list.now)).end) }
{
    let rows = list.len() / format::ROW_BYTES;
    let mut cells = [0u64; 3648];
    let mut saved = [0u64; 3648];
    let mut last = Ran {
        state: State::START,
        same: false,
    };
    let mut writer = Writer { text, end: 0 };
    let mut call: usize = 0;
    for i in 0..rows {
        if table::kind_at(list, i) == calls::CALL {
            last = interpreter::call(last, &mut cells, &mut saved, table, index, list, i);
            put_call(&mut writer, call, last.state, &cells, index);
            call += 1;
        }
    }
    store_text::put_entries(&mut writer, &cells, last.state.entries);
    writer.end
}

// Judges the table, under the rule file where there is one, then the list, then the buffer, and runs the calls: a refusal, or the length of the text, which
// stands at the buffer's start.
pub fn run_list(
    table: &[u8],
    list: &[u8],
    rules: Option<&[u8]>,
    text: &mut [u8],
) -> Result<usize, Refusal>
    ensures { (verdict_of result ≡ (run_by (option_copied rules.entry) table.now list.now text.old).answer) × (text.new ≡ (run_by (option_copied rules.entry) table.now list.now text.old).buffer) }
{
    judging::judge_under(table, rules)?;
    let index = table::index::index_of(table);
    calls::list_verdict(table, list, index)?;
    if text.len() < MIN_TEXT {
        return Err(Reason::SmallBuffer.at(0));
    }
    Ok(run_calls(table, list, index, text))
}
