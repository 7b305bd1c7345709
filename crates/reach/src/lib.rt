// Search over a finite graph whose nodes are numbers: the set of visited nodes, and the queue of those that wait to be expanded.
#![tactic(auto)]

ghost use Rattle.std.specs.Prelude.{◌≡◌, false, length, replicate};
ghost use Rattle.reach.specs.code.Search.{state, SameSlices, after, visit_of, is_unvisited, entering};

// The largest node number that an entry of the queue has room for.
const MAX_NODE: usize = 65535;

// Empties the set.
pub fn clear(visited: &mut [bool])
    ensures { visited.new ≡ replicate (length visited.old) false }
{
    visited.fill(false);
}

// A search: the set of visited nodes, and the queue, whose first `tail` entries are used.
#[derive(Drop)]
pub struct Traversal<'a> {
    pub visited: &'a mut [bool],
    pub queue: &'a mut [u16],
    pub tail: usize,
}

impl<'a> Traversal<'a> {
    // Whether a number is a node that is not visited yet.
    #[tactic(auto, unfolding(crate::specs::code::Search::is_unvisited))]
    fn is_unvisited(&self, v: usize) -> bool
        ensures { result ≡ is_unvisited self.now.visited.now v }
    {
        v < self.visited.len() && !self.visited[v]
    }

    // Visits a node: a new one is marked and put at the end of the queue. A number that is no node, a visited node and a full queue change nothing.
    #[tactic(auto, using(crate::proofs::Search::unvisited_below), unfolding(crate::specs::code::Search::visit_of, crate::specs::code::Search::is_new, crate::specs::code::Search::is_unvisited))]
    pub fn visit(&mut self, v: usize)
        ensures visits { state self.new ≡ visit_of self.old.visited.now self.old.queue.now self.old.tail v }
        ensures same_slices { SameSlices self.old self.new }
    {
        if self.is_unvisited(v) && self.tail < self.queue.len() && v <= MAX_NODE {
            self.visited[v] = true;
            self.queue[self.tail] = v as u16;
            self.tail += 1;
        }
    }

    // Marks a node that is to be followed at once. Whether it is new: a number that is no node and a visited node change nothing.
    #[tactic(auto, using(crate::proofs::Search::unvisited_below))]
    pub fn enter(&mut self, node: usize) -> bool
        ensures new { result ≡ is_unvisited self.old.visited.now node }
        ensures enters { state self.new ≡ after (entering self.old.visited.now node) self.old.queue.now self.old.tail }
        ensures same_slices { SameSlices self.old self.new }
    {
        let is_new = self.is_unvisited(node);
        if is_new {
            self.visited[node] = true;
        }
        is_new
    }
}
