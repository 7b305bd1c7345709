// Op: what an operation gives for two numbers.
#![tactic(auto)]

ghost use Rattle.std.specs.Prelude.{◌≡◌};
ghost use Rattle.arithmetic.specs.Arithmetic.{calculation};
ghost use Rattle.arithmetic.specs.code.Results.{calculated_of};

// Why an operation gives no number: the sum would have more than 64 bits; the difference would lie below 0; there is no such operation.
#[derive(Clone, Copy, PartialEq, Eq)]
pub enum Failure {
    TooLarge,
    BelowZero,
    Unknown,
}

// What operation op gives for two numbers.
pub fn calculate(op: u16, x: u64, y: u64) -> Result<u64, Failure>
    ensures { calculated_of result ≡ calculation op x y }
{
    match op {
        0 => x.checked_add(y).ok_or(Failure::TooLarge),
        1 => x.checked_sub(y).ok_or(Failure::BelowZero),
        2 => Ok(u64::from(x == y)),
        3 => Ok(u64::from(x < y)),
        _ => Err(Failure::Unknown),
    }
}
