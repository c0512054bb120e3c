// Uniting the cells that are close: they stand together among the sorted cells, and need no search.
ghost use Rattle.std.specs.Prelude.{◌≡◌, true, ◌<◌};
ghost use Rattle.counting_tree.specs.Given.{geometry};
ghost use Rattle.cells_grid.specs.Arrangement.{cell_at};
ghost use Rattle.cells_grid.specs.Listing.{sorted_core};
ghost use Rattle.clustering.specs.Clusters.{touches};
ghost use Rattle.clustering.specs.Leading.{Leading};
ghost use Rattle.clustering.specs.UniteAll.{link_at, meet_all, by_own_leaders};
ghost use Rattle.clustering.specs.Close.{close_at, close_pair, close_pairs};

use crate::{ListedCells, sets};
use core_cells::CoreCells;
use lists::Word;

// With how many of those before it a sorted cell is taken, before any search.
const BACK: usize = 8;

// Whether the first frames of cells c and d are core frames nearer than the tolerance: then c touches d, and nothing else has to be asked.
fn is_close(cells: &CoreCells, c: usize, d: usize) -> bool
    requires { (c < cells.now.grid.k) × (d < cells.now.grid.k) }
    ensures value { let f = cells.now.grid.frames in result ≡ close_at f.v f.n f.points.now c d }
    ensures touches { let g = geometry cells.now.grid.frames in result ≡ true → true ≡ touches g (cell_at g c) (cell_at g d) }
{
    let frames = &cells.grid.frames;
    let i = cells.grid.first_of(c);
    let j = cells.grid.first_of(d);
    frames.square_apart(i, j) < frames.v.t * frames.v.t && cells.is_core(i) && cells.is_core(j)
}

// Takes a sorted cell and an earlier one: where they are in two sets and close, makes one set of theirs. (Cells with one leader are passed at once.)
fn meet_close(cells: &CoreCells, leaders: &mut [Word], later: usize, earlier: usize)
    requires { Leading cells.now.grid.k leaders.old × (later < cells.now.grid.k) × (earlier < cells.now.grid.k) }
    ensures { let f = cells.now.grid.frames in leaders.new ≡ meet_all by_own_leaders (link_at (geometry f)) (close_pair f.v f.n f.points.now later earlier) leaders.old }
{
    if leaders[later] == leaders[earlier] || !is_close(cells, later, earlier) {
        return;
    }
    if sets::in_two_sets(leaders, later, earlier) {
        partitions::union(leaders, later, earlier);
    }
}

// Takes each sorted core cell from place 8 on with the eight before it. (Cells that stand together mostly lie in one block: so most of those that are linked
// are united with no search, and the search that follows finds them in one set. Turn q is for the cell at place q / 8.)
pub fn unite_close_cells(cells: &ListedCells, leaders: &mut [Word])
    requires { Leading cells.now.core.grid.k leaders.old }
    ensures { let f = cells.now.core.grid.frames in leaders.new ≡ meet_all by_own_leaders (link_at (geometry f))
        (close_pairs f.v f.n f.points.now (sorted_core f.v f.n f.points.now)) leaders.old }
{
    let sorted = cells.sorted();
    let sorted = sorted.core_cells();
    for q in BACK * BACK..BACK * sorted.len() {
        let p = q / BACK;
        let c = sorted[p] as usize;
        let d = sorted[p - 1 - q % BACK] as usize;
        meet_close(&cells.core, leaders, c, d);
    }
}
