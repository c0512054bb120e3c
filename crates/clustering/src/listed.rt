// Uniting the linked core cells by the cells' lists, in stages, after those that are close.
ghost use Rattle.std.specs.Prelude.{◌≡◌, ℕ, ◌+◌, ◌*◌, ◌/◌, ◌<◌, ◌≤◌, min, length, replicate};
ghost use Rattle.lists.specs.Lists.{numbers};
ghost use Rattle.lists.specs.Words.{column};
ghost use Rattle.hyperparams.specs.Params.{max_frames};
ghost use Rattle.counting_tree.specs.Given.{geometry};
ghost use Rattle.cells_grid.specs.Listing.{later_of};
ghost use Rattle.partitions.specs.LeaderLaws.{Stands};
ghost use Rattle.partitions.specs.Trials.{by_lowest};
ghost use Rattle.clustering.specs.Leading.{Leading};
ghost use Rattle.clustering.specs.Regions.{ClearAgain};
ghost use Rattle.clustering.specs.Uniting.{lowest_at};
ghost use Rattle.clustering.specs.UniteAll.{link_at, meet_all, pairs_by};

use crate::close::unite_close_cells;
use crate::linking::Linked;
use crate::links::meet_stage;
use crate::marks::mark_cells;
use crate::{ListedCells, sets};
use lists::Word;

// Where a stage that begins with cell `from` ends. (Each is longer than all before it: so there are few.)
fn stage_end(from: usize, k: usize) -> usize
    requires { (from < k) × (k ≤ max_frames) }
    ensures { result ≡ min k (2 * from + k / 16 + 1) }
{
    k.min(2 * from + k / 16 + 1)
}

// Takes each core cell with the core cells that it finds from its own row on, in stages. When a stage begins, the cells are marked with the lowest cells of their sets:
// those of one mark are in one set, and need not be met.
fn unite_lists(
    cells: &ListedCells,
    leaders: &mut [Word],
    marks: &mut [Word],
    runs: &mut [Word],
    list: &mut [Word],
)
    requires { let k = cells.now.core.grid.k in Leading k leaders.old × (length marks.old ≡ k) × (length runs.old ≡ k) × (k ≤ length list.old) }
    ensures leaders { let k = cells.now.core.grid.k in let f = cells.now.core.grid.frames in let g = geometry f in (low : ℕ → ℕ) → Stands k low leaders.old
        → Stands k (meet_all by_lowest (link_at g) (pairs_by g (later_of f.v f.n f.points.now) (numbers k)) low) leaders.new }
    ensures list { ClearAgain list.old list.new }
{
    let k = cells.core.grid.k;
    let mut from = 0;
    while from < k {
        mark_cells(cells.places, leaders, marks, runs);
        let to = stage_end(from, k);
        meet_stage(
            &Linked(&cells.core),
            cells,
            marks,
            runs,
            leaders,
            list,
            from..to,
        );
        from = to;
    }
}

// Writes the lowest cell of each cell's set, with all linked core cells united, in whatever order the lists give them. The words of the marks and runs, used meanwhile, are 0 then.
pub fn unite_listed_cells(
    cells: &ListedCells,
    leaders: &mut [Word],
    marks: &mut [Word],
    runs: &mut [Word],
    list: &mut [Word],
)
    requires { let k = cells.now.core.grid.k in (length leaders.old ≡ k) × (length marks.old ≡ k) × (length runs.old ≡ k) × (k ≤ length list.old) }
    ensures leaders { let f = cells.now.core.grid.frames in leaders.new ≡ column (lowest_at (geometry f) (f.n * f.n)) cells.now.core.grid.k }
    ensures marks { marks.new ≡ replicate cells.now.core.grid.k 0 }
    ensures runs { runs.new ≡ replicate cells.now.core.grid.k 0 }
    ensures list { ClearAgain list.old list.new }
{
    partitions::reset(leaders);
    unite_close_cells(cells, leaders);
    unite_lists(cells, leaders, marks, runs, list);
    sets::flatten(leaders);
    marks.fill(0);
    runs.fill(0);
}
