// Judges the made tables of tables.bin, one after the other, each under its rule file, and prints a line for each. A case is a table, whether there is a rule
// file, 0 or 1, and its bytes; table and file are their length and their bytes; a number is four bytes, lowest first. Where reading fails the program fails.
#![tactic(auto)]

use anyhow::Context;
use std::io::{Read, Write};
use std::{fs, io};

fn main(rt: HostRuntime) -> anyhow::Result<()> {
    let mut file = fs::open(&rt, "tables.bin").context("tables.bin")?;
    let mut table = [0u8; printing::MADE_TABLE];
    let mut rules = [0u8; printing::MADE_RULES];
    judge_all(&mut file, &mut io::writer(&rt), &mut table, &mut rules)
}

// Judges the tables of the file, each read into the buffers.
fn judge_all<R: Read, W: Write>(
    file: &mut R,
    out: &mut W,
    table: &mut [u8],
    rules: &mut [u8],
) -> anyhow::Result<()> {
    for _ in 0..printing::MADE_CASES {
        if !judge_next(file, out, table, rules)? {
            break;
        }
    }
    Ok(())
}

// Judges the next table; false where there is none, or where a part of it is too long or cut off.
fn judge_next<R: Read, W: Write>(
    file: &mut R,
    out: &mut W,
    table: &mut [u8],
    rules: &mut [u8],
) -> anyhow::Result<bool> {
    let Some(n) = printing::next_part(file, table).context("input")? else {
        return Ok(false);
    };
    if table.len() < n {
        return Ok(false);
    }
    let Some(has) = printing::next_number(file).context("input")? else {
        return Ok(false);
    };
    let Some(m) = printing::next_part(file, rules).context("input")? else {
        return Ok(false);
    };
    if rules.len() < m {
        return Ok(false);
    }
    let file = judging::rules_if(&rules[..m], has as u64);
    let verdict = judging::judge_under(&table[..n], file);
    printing::print_verdict(out, verdict).context("standard output")?;
    Ok(true)
}
