// Runs the made lists of cases.bin, one after the other, each under its rule file, and prints for each a line `case K` and the text, or the refusal line. A case
// is a table, a list, whether there is a rule file, 0 or 1, its bytes, and the length of the text buffer; table, list and file are their length and their bytes;
// a number is four bytes, lowest first. Where reading fails the program fails.
#![tactic(auto)]

use anyhow::Context;
use std::io::{Read, Write};
use std::{fs, io};

fn main(rt: HostRuntime) -> anyhow::Result<()> {
    let mut file = fs::open(&rt, "cases.bin").context("cases.bin")?;
    let mut table = [0u8; printing::MADE_TABLE];
    let mut list = [0u8; printing::MADE_LIST];
    let mut rules = [0u8; printing::MADE_RULES];
    let mut text = [0u8; printing::MADE_TEXT];
    run_all(
        &mut file,
        &mut io::writer(&rt),
        &mut table,
        &mut list,
        &mut rules,
        &mut text,
    )
}

// Runs the cases of the file, each read into the buffers.
fn run_all<R: Read, W: Write>(
    file: &mut R,
    out: &mut W,
    table: &mut [u8],
    list: &mut [u8],
    rules: &mut [u8],
    text: &mut [u8],
) -> anyhow::Result<()> {
    for k in 0..printing::MADE_CASES {
        if !run_next(file, out, k, table, list, rules, text)? {
            break;
        }
    }
    Ok(())
}

// Runs the next case; false where there is none, or where a part of it is too long or cut off.
fn run_next<R: Read, W: Write>(
    file: &mut R,
    out: &mut W,
    k: usize,
    table: &mut [u8],
    list: &mut [u8],
    rules: &mut [u8],
    text: &mut [u8],
) -> anyhow::Result<bool> {
    let Some(n) = printing::next_part(file, table).context("input")? else {
        return Ok(false);
    };
    if table.len() < n {
        return Ok(false);
    }
    let Some(m) = printing::next_part(file, list).context("input")? else {
        return Ok(false);
    };
    if list.len() < m {
        return Ok(false);
    }
    let Some(has) = printing::next_number(file).context("input")? else {
        return Ok(false);
    };
    let Some(r) = printing::next_part(file, rules).context("input")? else {
        return Ok(false);
    };
    if rules.len() < r {
        return Ok(false);
    }
    let Some(size) = printing::next_number(file).context("input")? else {
        return Ok(false);
    };
    if text.len() < size {
        return Ok(false);
    }
    writeln!(out, "case {k}").context("standard output")?;
    let file = judging::rules_if(&rules[..r], has as u64);
    let answer = running::run_list(&table[..n], &list[..m], file, &mut text[..size]);
    printing::print_run(out, answer, &text[..size]).context("standard output")?;
    Ok(true)
}
