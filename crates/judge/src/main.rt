// Reads table.bin, and rules.bin where there is one, and prints `accepted ROWS` or `refused N row R`. A missing table counts as no bytes; a missing rules.bin is
// no rule file. Where reading fails no verdict is printed, and the program fails.
#![tactic(auto)]

ghost use Rattle.std.specs.Prelude.{OnOk, option_copied};
ghost use Rattle.std.specs.Io.KnownBytes.{Appends};
ghost use Rattle.judging.specs.Files.{judge_by};
ghost use Rattle.printing.specs.Lines.{verdict_line};

use anyhow::Context;
use std::io;
use std::io::Write;
use std::rt::Files;

fn main(rt: HostRuntime) -> anyhow::Result<()> {
    let mut table = [0u8; printing::TABLE];
    let n = printing::read_file(&rt, "table.bin", &mut table).context("table.bin")?;
    judge_table(&rt, &table[..n])
}

// Judges the table under the rule file, where there is one.
fn judge_table(rt: &(impl Files + Print), table: &[u8]) -> anyhow::Result<()> {
    let mut rules = [0u8; printing::RULES];
    let got = printing::read_if_there(rt, "rules.bin", &mut rules).context("rules.bin")?;
    let mut out = io::writer(rt);
    match got {
        Some(k) => judge_under(&mut out, table, Some(&rules[..k])),
        None => judge_under(&mut out, table, None),
    }
    .context("standard output")
}

// Judges the table and prints the verdict.
#[tactic(auto, using(table::proofs::Reasons::told_is))]
fn judge_under<W: Write>(out: &mut W, table: &[u8], rules: Option<&[u8]>) -> io::Result<()>
    ensures { OnOk result (Appends (W.contents out.old) (W.contents out.new) (verdict_line (judge_by (option_copied rules.entry) table.now))) }
{
    printing::print_verdict(out, judging::judge_under(table, rules))
}
