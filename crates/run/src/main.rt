// Reads table.bin and calls.bin, and rules.bin where there is one, and prints the text of the calls, or the refusal line. A missing table or list counts as no
// bytes; a missing rules.bin is no rule file. Where reading fails nothing is printed, and the program fails.
#![tactic(auto)]

ghost use Rattle.std.specs.Prelude.{OnOk, replicate, option_copied};
ghost use Rattle.std.specs.Io.KnownBytes.{Appends};
ghost use Rattle.semantics.specs.Run.{min_text, run_by};
ghost use Rattle.printing.specs.Lines.{printed_of};

use anyhow::Context;
use std::io;
use std::io::Write;
use std::rt::Files;

fn main(rt: HostRuntime) -> anyhow::Result<()> {
    let mut table = [0u8; printing::TABLE];
    let mut list = [0u8; printing::LIST];
    let n = printing::read_file(&rt, "table.bin", &mut table).context("table.bin")?;
    let k = printing::read_file(&rt, "calls.bin", &mut list).context("calls.bin")?;
    run_files(&rt, &table[..n], &list[..k])
}

// Runs the list over the table, judged under the rule file, where there is one.
fn run_files(rt: &(impl Files + Print), table: &[u8], list: &[u8]) -> anyhow::Result<()> {
    let mut rules = [0u8; printing::RULES];
    let got = printing::read_if_there(rt, "rules.bin", &mut rules).context("rules.bin")?;
    let mut out = io::writer(rt);
    match got {
        Some(m) => run_under(&mut out, table, list, Some(&rules[..m])),
        None => run_under(&mut out, table, list, None),
    }
    .context("standard output")
}

// Runs the list over the table and prints the text, or the refusal.
#[tactic(auto, using(table::proofs::Reasons::told_is))]
fn run_under<W: Write>(
    out: &mut W,
    table: &[u8],
    list: &[u8],
    rules: Option<&[u8]>,
) -> io::Result<()>
    ensures { let ran = run_by (option_copied rules.entry) table.now list.now (replicate min_text 0) in
        OnOk result (Appends (W.contents out.old) (W.contents out.new) (printed_of ran.answer ran.buffer)) }
{
    let mut text = [0u8; running::MIN_TEXT];
    let answer = running::run_list(table, list, rules, &mut text);
    printing::print_run(out, answer, &text)
}
