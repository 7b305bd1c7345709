// The whole judge.
#![tactic(auto)]

ghost use Rattle.std.specs.Prelude.{◌≡◌, option_copied};
ghost use Rattle.table.specs.Verdicts.{verdict_of};
ghost use Rattle.judging.specs.Judging.{judge_of};
ghost use Rattle.judging.specs.Files.{file_if, judge_by};

use table::refusals::Refusal;
use table::{format, index};

// Judges a table without a rule file: the passes in order, over one index.
#[tactic(auto, using(crate::proofs::Laws::leaking))]
pub fn judge_table(table: &[u8]) -> Result<usize, Refusal>
    ensures { verdict_of result ≡ judge_of table.now }
{
    rows::form_pass(table)?;
    let index = index::index_of(table);
    names::names_with(table, index)?;
    operands::operands_with(table, index)?;
    locals::locals_with(table, index)?;
    leaks::leaks_with(table, index)?;
    Ok(table.len() / format::ROW_BYTES)
}

// The rule file that a caller lends, who says by `has` whether there is one: none where it is 0.
pub fn rules_if(rules: &[u8], has: u64) -> Option<&[u8]>
    ensures { option_copied result ≡ file_if has rules.now }
{
    if has == 0 { None } else { Some(rules) }
}

// Judges a table under a rule file, where there is one. `judge_table` is called in two places, so that it is not inlined: beside other code it takes up to a
// tenth longer.
pub fn judge_under(table: &[u8], rules: Option<&[u8]>) -> Result<usize, Refusal>
    ensures { verdict_of result ≡ judge_by (option_copied rules.entry) table.now }
{
    let Some(rules) = rules else {
        return judge_table(table);
    };
    judge_table(table)?;
    policy::rules_with(table, rules, index::index_of(table))
}
