// Uniting cells by a test of two of them, in whatever order lists give the pairs: so no trials are counted.
ghost use Rattle.std.specs.Prelude.{◌≡◌, Bool, ℕ, ◌<◌, ◌≤◌, map, length};
ghost use Rattle.lists.specs.Lists.{Below};
ghost use Rattle.lists.specs.Words.{rest};
ghost use Rattle.counting_tree.specs.Given.{geometry};
ghost use Rattle.cells_grid.specs.Listing.{later_of, unlike, Marked};
ghost use Rattle.clustering.specs.Leading.{Leading};
ghost use Rattle.clustering.specs.Regions.{ClearAgain};
ghost use Rattle.clustering.specs.UniteAll.{meet, meet_all, by_own_leaders, pairs_by};

use crate::{ListedCells, sets};
use lists::Word;
use std::ops::Range;

// A test of two of so many cells: whether they are taken to be linked.
pub(crate) trait Links {
    ghost cells: { Self → ℕ };

    ghost linked: { Self → ℕ → ℕ → Bool };

    fn linked(&self, c: usize, d: usize) -> bool
        requires { (c < cells self.now) × (d < cells self.now) }
        ensures { result ≡ linked self.now c d };
}

// Takes a pair of cells: where they are in two sets and linked, makes one set of theirs.
fn meet<L: Links>(links: &L, leaders: &mut [Word], c: usize, d: usize)
    requires { Leading (L.cells links.now) leaders.old × (c < L.cells links.now) × (d < L.cells links.now) }
    ensures { leaders.new ≡ meet by_own_leaders (L.linked links.now) c d leaders.old }
{
    if sets::in_two_sets(leaders, c, d) && links.linked(c, d) {
        partitions::union(leaders, c, d);
    }
}

// Takes cell c with each of some cells.
fn meet_list<L: Links>(links: &L, leaders: &mut [Word], c: usize, list: &[Word])
    requires { Leading (L.cells links.now) leaders.old × (c < L.cells links.now) × Below (L.cells links.now) list.now }
    ensures { leaders.new ≡ meet_all by_own_leaders (L.linked links.now) (map (λ d. (c, d)) list.now) leaders.old }
{
    for d in list {
        meet(links, leaders, c, *d as usize);
    }
}

// Takes the cells of a stage, each core cell with the core cells that it finds from its own row on and that do not have its mark.
// (So two cells that list each other are met once, and those of one set, as most are, are passed a run at a time.)
pub(crate) fn meet_stage<L: Links>(
    links: &L,
    cells: &ListedCells,
    marks: &[Word],
    runs: &[Word],
    leaders: &mut [Word],
    list: &mut [Word],
    stage: Range<usize>,
)
    requires cells { (L.cells links.now ≡ cells.now.core.grid.k) × (stage.end ≤ cells.now.core.grid.k) × (cells.now.core.grid.k ≤ length list.old) }
    requires leaders { Leading cells.now.core.grid.k leaders.old × Marked cells.now.places.now marks.now runs.now }
    ensures leaders { let f = cells.now.core.grid.frames in leaders.new ≡ meet_all by_own_leaders (L.linked links.now)
        (pairs_by (geometry f) (unlike marks.now (later_of f.v f.n f.points.now)) (rest stage.end stage.start)) leaders.old }
    ensures list { ClearAgain list.old list.new }
{
    let sorted = cells.sorted();
    for c in stage {
        if cells.core.has_core(c) {
            let mark = marks[c] as usize;
            let m = sorted.list_later(marks, runs, mark, c, list);
            meet_list(links, leaders, c, &list[..m]);
            list[..m].fill(0);
        }
    }
}
