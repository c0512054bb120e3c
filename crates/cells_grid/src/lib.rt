// Cells, their lists and their core frames (CellsGrid and Cell of the source), in words of one lent slice.
// `n` is the number of frames, `k` the number of cells. A cell has a number; frame i's is at i,
// and each of the regions below has one word a frame too. From 10n up to 16n, for `populate` and `label_points` also up to 24n,
// each phase finds words that are 0 and leaves them so: `inserting`, `crowding`, `pairs`, `listing` and the crate `blocks` say what stands there meanwhile.
#![tactic(auto)]

ghost use Rattle.std.specs.Prelude.{◌≡◌, ◌+◌, ◌*◌, ◌<◌, ◌≤◌, eqb, length, get_or, replicate};
ghost use Rattle.lists.specs.Words.{over, column, Clear};
ghost use Rattle.counting_tree.specs.Given.{geometry};
ghost use Rattle.cells_grid.specs.Cells.{cells};
ghost use Rattle.cells_grid.specs.Arrangement.{core_bit, Arranged};
ghost use Rattle.cells_grid.specs.Places.{end_in, populated};

use crate::sorted::SortedFrames;
use counting_tree::Frames;
use lists::Word;

mod around;
pub mod crowding;
mod grid;
mod inserting;
pub mod listing;
mod pairs;
mod sorted;
mod sorted_cells;

pub use grid::CellsGrid;
pub use sorted_cells::SortedCells;

// The regions: from n on the first frame of each cell, from 2n on where its frames begin among the places,
// from 3n on the places, which hold the frames by cell, from 4n on which frames are core.
pub const STARTS: usize = 2;

pub const PLACES: usize = 3;

pub const CORES: usize = 4;

// From 10n on which frames are core is told first, in words that are 0 before and after.
const TOLD: usize = 10;

// So many words a frame after those the sorted frames stand.
const SORTED: usize = blocks::PLACES - TOLD - 1;

// Numbers the cells and arranges the frames by cell. Returns the number of cells.
pub fn populate(frames: &Frames, work: &mut [Word]) -> usize
    requires { let f = frames.now in (24 * f.n ≤ length work.old) × Clear work.old (10 * f.n) (3 * f.n) × Clear work.old (16 * f.n) (8 * f.n) }
    ensures value { result ≡ length (cells (geometry frames.now)) }
    ensures work_after { work.new ≡ populated (geometry frames.now) work.old }
{
    let n = frames.n;
    let k = inserting::insert_points(frames, work);
    inserting::arrange(work, n, k);
    k
}

// Where the frames of cell c end among the places.
pub fn cell_end(work: &[Word], n: usize, k: usize, c: usize) -> usize
    requires { (c < k) × (k ≤ n) × (3 * n ≤ length work.now) }
    ensures { result ≡ end_in work.now n k c }
{
    let next = c + 1;
    if next < k {
        return lists::word(work, STARTS * n + next);
    }
    n
}

// Writes which frames are core, by a search around each frame of a cell that is not dense.
fn label_by_search(sorted: &SortedFrames, cores: &mut [Word])
    requires { length cores.old ≡ sorted.now.grid.frames.n }
    ensures { let f = sorted.now.grid.frames in cores.new ≡ column (core_bit (geometry f)) f.n }
{
    for (i, core) in cores.iter_mut().enumerate() {
        *core = sorted.core_frame(i) as Word;
    }
}

// The same by counting every pair of neighbours once: each count, from 0 on, is then told in its place.
fn label_by_pairs(sorted: &SortedFrames, cores: &mut [Word])
    requires { cores.old ≡ replicate sorted.now.grid.frames.n 0 }
    ensures { let f = sorted.now.grid.frames in cores.new ≡ column (core_bit (geometry f)) f.n }
{
    pairs::count_pairs(sorted, cores);
    for (i, core) in cores.iter_mut().enumerate() {
        *core = sorted.core_counted(i, *core as usize) as Word;
    }
}

// Writes which frames are core, by the frames near each.
fn label_frames(frames: &Frames, k: usize, work: &mut [Word])
    requires { let f = frames.now in Arranged (geometry f) k work.old × (24 * f.n ≤ length work.old) × Clear work.old (10 * f.n) (14 * f.n) }
    ensures { work.new ≡ over work.old (4 * frames.now.n) (column (core_bit (geometry frames.now)) frames.now.n) }
{
    let n = frames.n;
    crowding::sort_frames(frames, work);
    let (low, high) = work.split_at_mut(TOLD * n);
    let (cells, cores) = low.split_at_mut(CORES * n);
    let (told, rest) = high.split_at_mut(n);
    let grid = CellsGrid {
        frames: *frames,
        k,
        work: cells,
    };
    let sorted = SortedFrames {
        grid,
        sorted: &rest[SORTED * n..(SORTED + crowding::WORDS) * n],
    };
    if pairs::sparse(sorted.sorted, n) {
        label_by_pairs(&sorted, told);
    } else {
        label_by_search(&sorted, told);
    }
    lists::copy(&mut cores[..n], told);
    told.fill(0);
    lists::clear_words(work, blocks::PLACES * n, crowding::WORDS * n);
}

// Writes which frames are core. (Where every cell is dense all are, and no frame has to be looked for.)
pub fn label_points(frames: &Frames, k: usize, work: &mut [Word])
    requires { let f = frames.now in Arranged (geometry f) k work.old × (24 * f.n ≤ length work.old) × Clear work.old (10 * f.n) (14 * f.n) }
    ensures { work.new ≡ over work.old (4 * frames.now.n) (column (core_bit (geometry frames.now)) frames.now.n) }
{
    let n = frames.n;
    let grid = CellsGrid {
        frames: *frames,
        k,
        work,
    };
    if grid.all_dense() {
        lists::fill_words(work, CORES * n, n, 1);
        return;
    }
    label_frames(frames, k, work);
}

// Whether the words say that frame i is core.
pub fn is_core(work: &[Word], n: usize, i: usize) -> bool
    requires { (i < n) × (5 * n ≤ length work.now) }
    ensures { result ≡ eqb (get_or work.now (4 * n + i) 0) 1 }
{
    lists::word(work, CORES * n + i) == 1
}
