// The functions that a host written in C calls.
#![tactic(auto)]

ghost use Rattle.std.specs.Prelude.{◌≡◌, ◌<◌};
ghost use Rattle.table.specs.Verdicts.{value_of, verdict_of};
ghost use Rattle.semantics.specs.Run.{run_of};
ghost use Rattle.judging.specs.Judging.{judge_under, answer_of};

use table::refusals;
use table::refusals::Refusal;

// An answer in one number: number * 2^32 + value.
#[tactic(auto, using(table::proofs::Reasons::told_is), unfolding(judging::specs::Judging::answer_of))]
fn answer_of(verdict: Result<usize, Refusal>) -> u64
    requires { value_of (verdict_of verdict) < 4294967296 }
    ensures { result ≡ answer_of (verdict_of verdict) }
{
    4294967296 * u64::from(refusals::number_of(verdict)) + (refusals::value_of(verdict) as u64)
}

// Judges a table, under a rule file unless `has` is 0. The answer is number * 2^32 + value: number 0 with the number of rows, else the refusal with
// its row.
#[unsafe(no_mangle)]
pub extern "C" fn yithrel_judge(table: &[u8], rules: &[u8], has: u64) -> u64
    ensures { result ≡ answer_of (judge_under has rules.now table.now) }
{
    answer_of(judging::judge_under(table, judging::rules_if(rules, has)))
}

// Runs a list of calls over a table, judged under a rule file unless `has` is 0, and puts the text at the buffer's start. The answer is number * 2^32 +
// value: number 0 with the text's length, else the refusal with its row; then the buffer is as it was. A store line stands for each entry, rising by type,
// then by address.
#[unsafe(no_mangle)]
pub extern "C" fn yithrel_run(
    table: &[u8],
    list: &[u8],
    rules: &[u8],
    has: u64,
    text: &mut [u8],
) -> u64
    ensures { (result ≡ answer_of (run_of has rules.now table.now list.now text.old).answer) × (text.new ≡ (run_of has rules.now table.now list.now text.old).buffer) }
{
    answer_of(running::run_list(table, list, judging::rules_if(rules, has), text))
}
