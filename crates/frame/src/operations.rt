// Op.
ghost use Rattle.std.specs.Prelude.{◌≡◌};
ghost use Rattle.arithmetic.specs.code.Results.{calculated_of};
ghost use Rattle.state.specs.code.Coding.{value_of};
ghost use Rattle.state.specs.code.Frames.{top_at};
ghost use Rattle.state.specs.code.Cells.{cells_of};
ghost use Rattle.frame.specs.code.Turning.{after, settled};
ghost use Rattle.frame.specs.code.Operations.{closed, operated, op_of};

use arithmetic::Failure;
use state::frames::State;
use state::stops::Stop;

// The instruction took k operands and pushes one.
pub fn settle(s: State, cells: &mut [u64], k: u8, tag: u64, w: u64) -> State
    ensures { after result (cells_of cells.new) ≡ settled (cells_of cells.old) s k (value_of tag w) }
{
    s.drop_top(k).push(cells, tag, w).next()
}

// What an operation gave is pushed, or is a stop.
#[tactic(auto, unfolding(state::specs::code::Coding::value_of, state::specs::code::Coding::values))]
fn close(s: State, cells: &mut [u64], x: Result<u64, Failure>) -> State
    ensures { after result (cells_of cells.new) ≡ closed (cells_of cells.old) s (calculated_of x) }
{
    match x {
        Ok(v) => settle(s, cells, 2, state::NUMBER, v),
        Err(Failure::TooLarge) => s.ended(Stop::TooLarge),
        Err(Failure::BelowZero) => s.ended(Stop::BelowZero),
        Err(Failure::Unknown) => s.ended(Stop::Broken),
    }
}

// What an operation gives of the two top operands, which are numbers.
fn operated(s: State, cells: &[u64], b: u16) -> Result<u64, Failure>
    ensures { calculated_of result ≡ operated b (top_at (cells_of cells.now) s 1) (top_at (cells_of cells.now) s 0) }
{
    if s.has_number(cells, 1) && s.has_number(cells, 0) {
        return arithmetic::calculate(b, s.number(cells, 1), s.number(cells, 0));
    }
    Err(Failure::Unknown)
}

// Op.
pub fn op(s: State, cells: &mut [u64], b: u16) -> State
    ensures { after result (cells_of cells.new) ≡ op_of (cells_of cells.old) s b }
{
    close(s, cells, operated(s, cells, b))
}
