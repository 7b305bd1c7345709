// The search for marks over a whole table: each node is expanded once.
#![tactic(auto)]

ghost use Rattle.std.specs.Prelude.{◌≡◌, false, [], ◌∷◌, ℕ, ◌*◌, ◌≤◌, ◌<◌, length, get_or, replicate};
ghost use Rattle.reach.specs.Reach.{Mem, Inside, iter, mark};
ghost use Rattle.reach.specs.code.Search.{state, SameSlices, after, visit_all};
ghost use Rattle.table.specs.Rows.{row_count};
ghost use Rattle.table.specs.Index.{index_of};
ghost use Rattle.flow.specs.Places.{nodes_of};
ghost use Rattle.sizes.specs.code.Formed.{Formed};
ghost use Rattle.helpers.specs.Rounds.{up_to};
ghost use Rattle.marks.specs.code.Search.{next_rows, rows_after, first_at, goes_to, copies, gone, copied, code_edges, sent_to, result_edges, head_edges, place_edges, edges, made_at};
ghost use Rattle.marks.specs.code.Found.{Found};

use entries::RowEntry;
use reach::Traversal;
use table::index::Index;
use table::{Row, format};

// Visits a place of each row after the instruction at row `at`, whose procedure's first instruction is at row `base`.
#[tactic(auto, using(crate::proofs::Laws::next_none, crate::proofs::Laws::next_branch, crate::proofs::Laws::next_both, crate::proofs::Laws::next_one, crate::proofs::Laws::node_small))]
fn visit_next(
    search: &mut Traversal<'_>,
    row: Row,
    at: usize,
    base: u16,
    width: usize,
    place: usize,
)
    requires { (at ≤ 65535) × (width ≤ 32) × (place ≤ 32) }
    ensures visits { state search.new ≡ visit_all (state search.old) (nodes_of width (next_rows row at base) (place ∷ [])) }
    ensures same_slices { SameSlices search.old search.new }
{
    let next = width * (at + 1) + place;
    let target = width * ((base as usize) + (row.b as usize)) + place;
    match row.a {
        format::RET => {}
        format::BRANCH => search.visit(target),
        format::BRANCH_COND => {
            search.visit(next);
            search.visit(target);
        }
        _ => search.visit(next),
    }
}

// Visits the first instruction of every procedure, the last one first.
#[tactic(auto, using(crate::proofs::Laws::up_next, crate::proofs::Laws::up_end, crate::proofs::Laws::first_some, crate::proofs::Laws::first_none))]
fn visit_firsts(search: &mut Traversal<'_>, table: &[u8], entries: &[RowEntry])
    requires { row_count table.now ≤ length entries.now }
    ensures visits { state search.new ≡ visit_all (state search.old) (up_to (first_at table.now entries.now) (row_count table.now)) }
    ensures same_slices { SameSlices search.old search.new }
{
    let n = table.len() / format::ROW_BYTES;
    for r in (0..n).rev() {
        if table::kind_at(table, r) == format::PROCEDURE {
            search.visit(entries[r].base as usize);
        }
    }
}

// Visits the rows after row r.
#[tactic(auto, using(crate::proofs::Laws::after_some, crate::proofs::Laws::after_none))]
fn visit_rows_after(search: &mut Traversal<'_>, table: &[u8], entries: &[RowEntry], r: usize)
    requires { (r < length entries.now) × (r ≤ 65535) }
    ensures visits { state search.new ≡ visit_all (state search.old) (rows_after table.now entries.now r) }
    ensures same_slices { SameSlices search.old search.new }
{
    let row = table::row_at(table, r);
    if row.kind == format::INSTRUCTION {
        visit_next(search, row, r, entries[r].base, 1, 0);
    }
}

// Finds the rows that walks arrive at.
fn find_arrivals(arrives: &mut [bool], queue: &mut [u16], table: &[u8], entries: &[RowEntry])
    requires { (arrives.old ≡ replicate (row_count table.now) false) × (row_count table.now ≤ length queue.old) × (row_count table.now ≤ length entries.now) × (row_count table.now ≤ 2048) × Inside (rows_after table.now entries.now) (row_count table.now) × ((v : ℕ) → Mem v (up_to (first_at table.now entries.now) (row_count table.now)) → v < row_count table.now) }
    ensures { arrives.new ≡ iter (rows_after table.now entries.now) (row_count table.now) (mark (replicate (row_count table.now) false) (up_to (first_at table.now entries.now) (row_count table.now))) }
{
    let mut search = Traversal {
        visited: arrives,
        queue,
        tail: 0,
    };
    visit_firsts(&mut search, table, entries);
    let mut head = 0;
    // A queue that grows while it is read: no range tells its end.
    while head < search.tail {
        let r = search.queue[head] as usize;
        head += 1;
        visit_rows_after(&mut search, table, entries, r);
    }
}

// The place where a mark at place x is after an instruction; 32 or more where it is gone.
#[tactic(auto, unfolding(crate::specs::code::Search::goes_to))]
fn goes_to(row: Row, entry: RowEntry, x: usize) -> usize
    requires { x < 32 }
    ensures { result ≡ goes_to row entry.takes entry.gives x }
{
    let takes = entry.takes as usize;
    if x < 16 {
        match row.a {
            format::MV_LOC if row.b as usize == x => 16,
            format::ST_LOC if row.b as usize == x => 32,
            _ => x,
        }
    } else if x - 16 < takes {
        if row.a == format::ST_LOC && row.b < 16 {
            row.b as usize
        } else {
            32
        }
    } else {
        x - takes + (entry.gives as usize)
    }
}

// Whether the instruction also pushes a copy of it.
#[tactic(auto, unfolding(crate::specs::code::Search::copies))]
fn copies_mark(row: Row, x: usize) -> bool
    ensures { result ≡ copies row x }
{
    x < 16 && row.a == format::CP_LOC && row.b as usize == x
}

// Visits where a mark at place x goes to after the instruction at row `at`.
#[tactic(auto, using(crate::proofs::Laws::gone_some, crate::proofs::Laws::gone_none))]
fn visit_gone(search: &mut Traversal<'_>, row: Row, at: usize, entry: RowEntry, x: usize)
    requires { (at ≤ 65535) × (x < 32) }
    ensures visits { state search.new ≡ visit_all (state search.old) (gone row at entry.base entry.takes entry.gives x) }
    ensures same_slices { SameSlices search.old search.new }
{
    let place = goes_to(row, entry, x);
    if place < 32 {
        visit_next(search, row, at, entry.base, 32, place);
    }
}

// Visits where its copy does.
#[tactic(auto, using(crate::proofs::Laws::copied_some, crate::proofs::Laws::copied_none))]
fn visit_copied(search: &mut Traversal<'_>, row: Row, at: usize, entry: RowEntry, x: usize)
    requires { at ≤ 65535 }
    ensures visits { state search.new ≡ visit_all (state search.old) (copied row at entry.base x) }
    ensures same_slices { SameSlices search.old search.new }
{
    if copies_mark(row, x) {
        visit_next(search, row, at, entry.base, 32, 16);
    }
}

// Visits the node of a procedure's own row that gets a mark at place x of an instruction, where there is one.
#[tactic(auto, unfolding(crate::specs::code::Search::sent_to, reach::specs::code::Search::visit_all))]
fn visit_sent(search: &mut Traversal<'_>, row: Row, entry: RowEntry, x: usize)
    requires { x < 32 }
    ensures visits { state search.new ≡ visit_all (state search.old) (sent_to row entry.takes entry.sends x) }
    ensures same_slices { SameSlices search.old search.new }
{
    let takes = entry.takes as usize;
    let sends = entry.sends as usize;
    if 16 <= x && x - 16 < takes && 0 < sends {
        let first = if row.a == format::CALL { 0 } else { 16 };
        search.visit(32 * (sends - 1) + first + (takes - 1 - (x - 16)));
    }
}

// Visits the nodes after place x of the instruction at row `at`.
#[tactic(auto, using(crate::proofs::Laws::code_visits))]
fn expand_code(search: &mut Traversal<'_>, row: Row, at: usize, entry: RowEntry, x: usize)
    requires { (at ≤ 65535) × (x < 32) }
    ensures visits { state search.new ≡ visit_all (state search.old) (code_edges row at entry.base entry.takes entry.gives entry.sends x) }
    ensures same_slices { SameSlices search.old search.new }
{
    visit_gone(search, row, at, entry, x);
    visit_copied(search, row, at, entry, x);
    visit_sent(search, row, entry, x);
}

// Call sites: for each row that calls, the row before it that calls the same procedure, plus one, and 0 for none; and which rows walks arrive at.
#[derive(Clone, Copy)]
struct Sites<'a> {
    before: &'a [u16],
    arrives: &'a [bool],
    ghost sized: { (length arrives.now ≡ length before.now) × (length before.now ≤ 65535) },
    ghost falls: { (k : ℕ) → get_or before.now k 0 ≤ k },
}

// Visits what a marked result r is pushed as, at each call site that walks arrive at: `start` is the last one, kept.
fn visit_results(search: &mut Traversal<'_>, sites: Sites<'_>, results: u16, start: usize, r: usize)
    requires { start ≤ length sites.before.now }
    ensures visits { state search.new ≡ visit_all (state search.old) (result_edges sites.entry.before.now sites.entry.arrives.now results start r) }
    ensures same_slices { SameSlices search.old search.new }
{
    let results = results as usize;
    if results <= r {
        return;
    }
    let mut at = start;
    // A chain: each call site has the one before it, kept as its row plus one, and 0 ends it.
    while 0 < at {
        let row = at - 1;
        let arrived = sites.arrives[row];
        if arrived {
            search.visit(32 * (row + 1) + (16 + (results - 1 - r)));
        }
        at = sites.before[row] as usize;
    }
}

// Visits the nodes after place x of a procedure's own row.
#[tactic(auto, using(crate::proofs::Laws::head_given, crate::proofs::Laws::head_past, crate::proofs::Laws::head_result))]
fn expand_head(
    search: &mut Traversal<'_>,
    sites: Sites<'_>,
    entry: RowEntry,
    start: usize,
    x: usize,
)
    requires { (start ≤ length sites.before.now) × (x < 32) }
    ensures visits { state search.new ≡ visit_all (state search.old) (head_edges sites.entry.before.now sites.entry.arrives.now entry.takes entry.gives entry.base start x) }
    ensures same_slices { SameSlices search.old search.new }
{
    if 16 <= x {
        visit_results(search, sites, entry.gives, start, x - 16);
    } else if x < entry.takes as usize {
        search.visit(32 * (entry.base as usize) + x);
    }
}

// Visits the nodes after place x of row r.
#[tactic(auto, using(crate::proofs::Laws::place_head, crate::proofs::Laws::place_code, crate::proofs::Laws::place_none))]
fn expand(
    search: &mut Traversal<'_>,
    table: &[u8],
    entries: &[RowEntry],
    sites: Sites<'_>,
    last: &[u16],
    r: usize,
    x: usize,
)
    requires { (r < length entries.now) × (r ≤ 65535) × (x < 32) × ((q : ℕ) → get_or last.now q 0 ≤ length sites.before.now) }
    ensures visits { state search.new ≡ visit_all (state search.old) (place_edges table.now entries.now sites.entry.before.now last.now sites.entry.arrives.now r x) }
    ensures same_slices { SameSlices search.old search.new }
{
    let row = table::row_at(table, r);
    let entry = entries[r];
    match row.kind {
        format::PROCEDURE => {
            let start = last.get(entry.sends as usize).copied().unwrap_or(0);
            expand_head(search, sites, entry, start as usize, x);
        }
        format::INSTRUCTION => expand_code(search, row, r, entry, x),
        _ => {}
    }
}

// Visits where marks are made, the last row first.
fn visit_made(
    search: &mut Traversal<'_>,
    table: &[u8],
    index: Index,
    entries: &[RowEntry],
    arrives: &[bool],
)
    requires { (row_count table.now ≤ length entries.now) × (row_count table.now ≤ length arrives.now) × (row_count table.now ≤ 2048) }
    ensures visits { state search.new ≡ visit_all (state search.old) (up_to (made_at table.now index entries.now arrives.now) (row_count table.now)) }
    ensures same_slices { SameSlices search.old search.new }
{
    let n = table.len() / format::ROW_BYTES;
    for r in (0..n).rev() {
        let row = table::row_at(table, r);
        let arrived = arrives[r];
        if arrived && row.a == format::BORROW_FLD && entries::makes_mark(table, index, r) {
            visit_next(search, row, r, entries[r].base, 32, 16);
        }
    }
}

// Where marks come to from where they are made.
fn search(
    visited: &mut [bool],
    queue: &mut [u16],
    table: &[u8],
    index: Index,
    entries: &[RowEntry],
    sites: Sites<'_>,
    last: &[u16],
)
    requires { (visited.old ≡ replicate (32 * row_count table.now) false) × (32 * row_count table.now ≤ length queue.old) × (row_count table.now ≤ 2048) × (length entries.now ≡ row_count table.now) × (length sites.before.now ≡ row_count table.now) × ((q : ℕ) → get_or last.now q 0 ≤ row_count table.now) × Inside (edges table.now entries.now sites.before.now last.now sites.arrives.now) (32 * row_count table.now) × ((v : ℕ) → Mem v (up_to (made_at table.now index entries.now sites.arrives.now) (row_count table.now)) → v < 32 * row_count table.now) }
    ensures { visited.new ≡ iter (edges table.now entries.now sites.entry.before.now last.now sites.entry.arrives.now) (32 * row_count table.now) (mark (replicate (32 * row_count table.now) false) (up_to (made_at table.now index entries.now sites.entry.arrives.now) (row_count table.now))) }
{
    let mut search = Traversal {
        visited,
        queue,
        tail: 0,
    };
    visit_made(&mut search, table, index, entries, sites.arrives);
    let mut head = 0;
    // A queue that grows while it is read: no range tells its end.
    while head < search.tail {
        let u = search.queue[head] as usize;
        head += 1;
        expand(&mut search, table, entries, sites, last, u / 32, u % 32);
    }
}

// Finds where marks come to, in a table that length, rows and names accept. What is lent is room to work in, without a mark and without a link; `entries`, `before` and `arrives`
// have an entry for each row, and `visited` 32.
pub fn find(
    table: &[u8],
    index: Index,
    visited: &mut [bool],
    queue: &mut [u16],
    entries: &mut [RowEntry],
    before: &mut [u16],
    last: &mut [u16],
    arrives: &mut [bool],
)
    requires { Formed table.now × (index ≡ index_of table.now) × (visited.old ≡ replicate (32 * row_count table.now) false) × (32 * row_count table.now ≤ length queue.old) × (length entries.old ≡ row_count table.now) × (before.old ≡ replicate (row_count table.now) 0) × (last.old ≡ replicate 128 0) × (arrives.old ≡ replicate (row_count table.now) false) }
    ensures { Found table.now visited.new × (length visited.new ≡ 32 * row_count table.now) }
{
    entries::fill(table, index, entries);
    entries::link(entries, last, before);
    find_arrivals(arrives, queue, table, entries);
    let sites = Sites { before, arrives };
    search(visited, queue, table, index, entries, sites, last);
}
