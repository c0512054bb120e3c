// Uniting the linked core cells by trials of which there is a given number (`unite_neighbouring_cells` of the source's CellsGrid).
ghost use Rattle.std.specs.Prelude.{◌≡◌, ◌&&◌, IfSome, ◌<◌, length};
ghost use Rattle.lists.specs.Lists.{numbers, nonzero};
ghost use Rattle.lists.specs.Words.{column};
ghost use Rattle.counting_tree.specs.Given.{geometry};
ghost use Rattle.cells_grid.specs.Arrangement.{cell_at};
ghost use Rattle.cells_grid.specs.Cells.{core, count};
ghost use Rattle.core_cells.specs.RootBox.{root_box};
ghost use Rattle.partitions.specs.Trials.{run, by_leaders};
ghost use Rattle.clustering.specs.Clusters.{touches};
ghost use Rattle.clustering.specs.Leading.{Leading};
ghost use Rattle.clustering.specs.Uniting.{pair_at, one_pair, pairs_with, pairs_of, touch_at, progress_of, told_of, uniting, lowest_at};

use crate::{KINDS, sets};
use core_cells::CoreCells;
use counting_tree::Box;
use lists::Word;

// From 9n on, while cells are united: the mark of each cell, the lowest cell of its set when the stage began.
pub const MARKS: usize = KINDS;

// Where the trials ended: how many were used, and the pair that still needs one, if one does.
#[derive(Clone, Copy, PartialEq, Eq)]
pub struct Progress {
    pub used: usize,
    pub next: Option<(usize, usize)>,
}

// Whether frame i is core, and has a non-zero count in the tree of cell d, whose root box is handed on as for `reaches`.
fn core_reaches(cells: &CoreCells, i: usize, d: usize, root: Option<Box>) -> bool
    requires { let f = cells.now.grid.frames in (i < f.n) × (d < cells.now.grid.k) × IfSome root (λ b. b ≡ root_box f.v f.n f.points.now d) }
    ensures { let g = geometry cells.now.grid.frames in result ≡ (core g i && nonzero (count g i (cell_at g d))) }
{
    cells.is_core(i) && cells.reaches(i, d, root)
}

// Whether a core frame of cell c has a non-zero count in the tree of cell d. (No frame is asked where the spans of the cells tell that there is none.)
pub fn touches_cell(cells: &CoreCells, c: usize, d: usize) -> bool
    requires { (c < cells.now.grid.k) × (d < cells.now.grid.k) }
    ensures { let g = geometry cells.now.grid.frames in result ≡ touches g (cell_at g c) (cell_at g d) }
{
    if cells.apart(c, d) {
        return false;
    }
    let root = cells.root_first(d);
    cells
        .grid
        .frames_of(c)
        .iter()
        .any(|i| core_reaches(cells, *i as usize, d, root))
}

// Whether c and d are core cells, and c lists d.
fn is_pair(cells: &CoreCells, c: usize, d: usize) -> bool
    requires { (c < cells.now.grid.k) × (d < cells.now.grid.k) }
    ensures { result ≡ pair_at (geometry cells.now.grid.frames) c d }
{
    cells.has_core(c) && cells.has_core(d) && cells.grid.is_listed(c, d)
}

// Takes the cells c and d, if they are a pair: in one set they cost nothing, else a trial, which makes one set of theirs if c touches d.
// Returns how many trials are used then, or where they ended.
fn try_pair(
    cells: &CoreCells,
    leaders: &mut [Word],
    c: usize,
    d: usize,
    trials: usize,
    used: usize,
) -> Result<usize, Progress>
    requires { Leading cells.now.grid.k leaders.old × (c < cells.now.grid.k) × (d < cells.now.grid.k) }
    ensures value { let g = geometry cells.now.grid.frames in result ≡ told_of (run by_leaders (touch_at g) trials used (one_pair g c d) leaders.old) }
    ensures leaders { let g = geometry cells.now.grid.frames in leaders.new ≡ (run by_leaders (touch_at g) trials used (one_pair g c d) leaders.old).sets }
{
    if !is_pair(cells, c, d) || partitions::same_set(leaders, c, d) {
        return Ok(used);
    }
    if used >= trials {
        return Err(Progress {
            used,
            next: Some((c, d)),
        });
    }
    if touches_cell(cells, c, d) {
        partitions::union(leaders, c, d);
    }
    Ok(used + 1)
}

// Takes the pairs of cell c in ascending order.
fn unite_row(
    cells: &CoreCells,
    leaders: &mut [Word],
    c: usize,
    trials: usize,
    used: usize,
) -> Result<usize, Progress>
    requires { Leading cells.now.grid.k leaders.old × (c < cells.now.grid.k) }
    ensures value { let g = geometry cells.now.grid.frames in result ≡ told_of (run by_leaders (touch_at g) trials used (pairs_with g c (numbers cells.now.grid.k)) leaders.old) }
    ensures leaders { let g = geometry cells.now.grid.frames in leaders.new ≡ (run by_leaders (touch_at g) trials used (pairs_with g c (numbers cells.now.grid.k)) leaders.old).sets }
{
    let mut used = used;
    for d in 0..cells.grid.k {
        used = try_pair(cells, leaders, c, d, trials, used)?;
    }
    Ok(used)
}

// Takes the pairs in ascending order.
fn unite_pairs(cells: &CoreCells, leaders: &mut [Word], trials: usize) -> Result<usize, Progress>
    requires { Leading cells.now.grid.k leaders.old }
    ensures value { let g = geometry cells.now.grid.frames in result ≡ told_of (run by_leaders (touch_at g) trials 0 (pairs_of g) leaders.old) }
    ensures leaders { let g = geometry cells.now.grid.frames in leaders.new ≡ (run by_leaders (touch_at g) trials 0 (pairs_of g) leaders.old).sets }
{
    let mut used = 0;
    for c in 0..cells.grid.k {
        used = unite_row(cells, leaders, c, trials, used)?;
    }
    Ok(used)
}

// Writes the lowest cell of each cell's set, after at most so many trials.
pub fn unite_neighbouring_cells(cells: &CoreCells, leaders: &mut [Word], trials: usize) -> Progress
    requires { length leaders.old ≡ cells.now.grid.k }
    ensures progress { result ≡ progress_of (uniting (geometry cells.now.grid.frames) trials) }
    ensures leaders { leaders.new ≡ column (lowest_at (geometry cells.now.grid.frames) trials) cells.now.grid.k }
{
    partitions::reset(leaders);
    let end = unite_pairs(cells, leaders, trials);
    sets::flatten(leaders);
    match end {
        Ok(used) => Progress { used, next: None },
        Err(stopped) => stopped,
    }
}
