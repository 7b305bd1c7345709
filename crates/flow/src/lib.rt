// Search over the nodes (instruction, place) of a procedure: how it goes on from the node that is followed.
#![tactic(auto)]

ghost use Rattle.std.specs.Prelude.{◌≡◌, [], ◌∷◌, ◌*◌, ◌≤◌, ◌<◌, length};
ghost use Rattle.reach.specs.code.Search.{state, SameSlices, visit_all};
ghost use Rattle.flow.specs.Steps.{below};
ghost use Rattle.flow.specs.Places.{nodes_of};
ghost use Rattle.flow.specs.code.Going.{followed_of, aside_of, GoesOn};

use reach::Traversal;
use table::{Row, format};

// The instruction that a walk is followed to from instruction i of n; n where there is none.
// No Option: a jump past the end is refused where its node is entered, and n is refused there by the same test.
#[tactic(auto, unfolding(crate::specs::code::Going::followed_of))]
fn followed(n: usize, row: Row, i: usize) -> usize
    requires { i < 256 }
    ensures { result ≡ followed_of n row i }
{
    if row.a == format::RET {
        return n;
    }
    if row.a == format::BRANCH {
        return row.b as usize;
    }
    i + 1
}

// Visits the place of the other branch, where there is one, of n instructions.
#[tactic(auto, using(crate::proofs::Laws::node_small, crate::proofs::Laws::aside_there, crate::proofs::Laws::aside_past, crate::proofs::Laws::aside_none))]
fn visit_aside(search: &mut Traversal<'_>, width: u8, n: usize, row: Row, place: u16)
    ensures visits { state search.new ≡ visit_all (state search.old) (nodes_of width (below n (aside_of row)) (place ∷ [])) }
    ensures same_slices { SameSlices search.old search.new }
{
    let j = row.b as usize;
    if row.a == format::BRANCH_COND && j < n {
        search.visit((width as usize) * j + (place as usize));
    }
}

// Goes on from instruction i of n, where what is followed comes to one place after it: at the other branch the place is visited, and at the instruction that is
// followed it is entered. Returns that instruction where the place is new there.
pub fn go_on(
    search: &mut Traversal<'_>,
    width: u8,
    n: usize,
    row: Row,
    i: usize,
    place: u16,
) -> Option<usize>
    requires { (length search.old.visited.now ≡ width * n) × (n ≤ 256) × (i < 256) }
    ensures on { GoesOn width n row i place (state search.old) (state search.new) result }
    ensures same_slices { SameSlices search.old search.new }
{
    let at = followed(n, row, i);
    visit_aside(search, width, n, row, place);
    search
        .enter((width as usize) * at + (place as usize))
        .then_some(at)
}
