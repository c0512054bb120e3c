// Whether the trees of large cells are asked, seen before any is built: cells are united as far as whole numbers of a few of their frames tell, and then it is
// seen whether a large cell still finds one of another set. No label depends on the answer.
ghost use Rattle.std.specs.Prelude.{◌≡◌, ◌+◌, ◌-◌, ◌*◌, ◌<◌, ◌≤◌, ltb, length, get_or};
ghost use Rattle.lists.specs.Lists.{Below};
ghost use Rattle.lists.specs.Words.{over, part, Clear};
ghost use Rattle.counting_tree.specs.Given.{geometry};
ghost use Rattle.cells_grid.specs.Cells.{members};
ghost use Rattle.cells_grid.specs.Arrangement.{cell_at};
ghost use Rattle.cells_grid.specs.Listing.{Marked};
ghost use Rattle.cells_grid.specs.Places.{end_in};
ghost use Rattle.core_cells.specs.Forest.{Grown};
ghost use Rattle.clustering.specs.Regions.{ClearAgain, Listable};
ghost use Rattle.clustering.specs.Soon.{is_near_at, soon_near_at, soon_linked_at};

use crate::linking::core_frame;
use crate::links::{Links, meet_stage};
use crate::marks::mark_cells;
use crate::regions::listed_cells;
use crate::uniting::MARKS;
use crate::{LABELS, LEADERS, ListedCells};
use cells_grid::CellsGrid;
use cells_grid::listing::ENDS;
use core_cells::{CoreCells, NODES, PATHS};
use counting_tree::Frames;
use hyperparams::ValidParams;
use lists::Word;

// How many frames of a cell are looked at, where no tree is asked.
const SOON: usize = 8;

// Whether frame j of cell c is a core frame nearer than the tolerance to a core frame of cell d.
fn is_near(cells: &CoreCells, c: usize, d: usize, j: usize) -> bool
    requires { (c < cells.now.grid.k) × (d < cells.now.grid.k) }
    ensures { let f = cells.now.grid.frames in result ≡ is_near_at f.v f.n f.points.now c d j }
{
    match core_frame(cells, c, j) {
        Some(i) => cells.settled_by_frames(i, d) == Some(true),
        None => false,
    }
}

// Whether one of the first frames of cell c is a core frame nearer than the tolerance to a core frame of cell d.
fn is_soon_near(cells: &CoreCells, c: usize, d: usize) -> bool
    requires { (c < cells.now.grid.k) × (d < cells.now.grid.k) }
    ensures { let f = cells.now.grid.frames in result ≡ soon_near_at f.v f.n f.points.now c d }
{
    (0..SOON).any(|j| is_near(cells, c, d, j))
}

// The test whether cells are not apart by their spans, and the first frames of one of them tell that they are linked.
#[derive(Clone, Copy)]
struct SoonLinked<'a>(&'a CoreCells<'a>);

impl Links for SoonLinked<'_> {
    ghost cells = { λ l. l.0.now.grid.k };

    ghost linked = { λ l. let f = l.0.now.grid.frames in soon_linked_at f.v f.n f.points.now };

    fn linked(&self, c: usize, d: usize) -> bool {
        !self.0.apart(c, d) && (is_soon_near(self.0, c, d) || is_soon_near(self.0, d, c))
    }
}

// How many frames may not be core where none is looked for: each may ask a large cell.
const BORDER: usize = 64;

// Whether cell c is large: so many frames may be core that it would have a tree.
fn is_large(grid: &CellsGrid, c: usize) -> bool
    requires { c < grid.now.k }
    ensures frames { let g = geometry grid.now.frames in result ≡ ltb 64 (length (members g (cell_at g c))) }
    ensures words { let s = grid.now in let n = s.frames.n in result ≡ ltb 64 (end_in s.work.now n s.k c - get_or s.work.now (2 * n + c) 0) }
{
    grid.frames_of(c).len() > PATHS
}

// Whether some cell is large.
fn has_large(grid: &CellsGrid) -> bool {
    (0..grid.k).any(|c| is_large(grid, c))
}

// Whether more than BORDER frames are not core.
fn has_border(cells: &CoreCells) -> bool {
    (0..cells.grid.frames.n)
        .filter(|i| !cells.is_core(*i))
        .count()
        > BORDER
}

// Whether c or d is large, and the two are not apart by their spans.
fn asks_tree(cells: &CoreCells, c: usize, d: usize) -> bool
    requires { (c < cells.now.grid.k) × (d < cells.now.grid.k) }
{
    (is_large(&cells.grid, c) || is_large(&cells.grid, d)) && !cells.apart(c, d)
}

// Whether a tree would be asked with cell c and one of some cells.
fn asks_trees(cells: &CoreCells, c: usize, list: &[Word]) -> bool
    requires { (c < cells.now.grid.k) × Below cells.now.grid.k list.now }
{
    list.iter().any(|d| asks_tree(cells, c, *d as usize))
}

// Whether some core cell finds a core cell of another mark with which a tree would be asked.
fn some_ask(cells: &ListedCells, marks: &[Word], runs: &[Word], list: &mut [Word]) -> bool
    requires { Marked cells.now.places.now marks.now runs.now × (cells.now.core.grid.k ≤ length list.old) }
    ensures { ClearAgain list.old list.new }
{
    let sorted = cells.sorted();
    for c in 0..cells.core.grid.k {
        if cells.core.has_core(c) {
            let mark = marks[c] as usize;
            let m = sorted.list_later(marks, runs, mark, c, list);
            let ask = asks_trees(&cells.core, c, &list[..m]);
            list[..m].fill(0);
            if ask {
                return true;
            }
        }
    }
    false
}

// Whether trees would be asked once cells are united as far as no tree is.
fn asked_at_last(
    cells: &ListedCells,
    leaders: &mut [Word],
    marks: &mut [Word],
    runs: &mut [Word],
    list: &mut [Word],
) -> bool
    requires { let k = cells.now.core.grid.k in (length leaders.old ≡ k) × (length marks.old ≡ k) × (length runs.old ≡ k) × (k ≤ length list.old) }
    ensures { ClearAgain list.old list.new }
{
    partitions::reset(leaders);
    crate::close::unite_close_cells(cells, leaders);
    mark_cells(cells.places, leaders, marks, runs);
    let links = SoonLinked(&cells.core);
    meet_stage(
        &links,
        cells,
        marks,
        runs,
        leaders,
        list,
        0..cells.core.grid.k,
    );
    mark_cells(cells.places, leaders, marks, runs);
    some_ask(cells, marks, runs, list)
}

// Whether trees may be asked that were not built: with s 0 none is, and where there are many cells those of the large ones are there.
fn may_lack(v: ValidParams, n: usize, k: usize) -> bool {
    v.s > 0 && core_cells::path_limit(v.s, n, k) > PATHS
}

// Whether trees would be asked of the cells as they stand sorted, in four words a frame, with room for a list.
fn asked_words<'a>(
    frames: Frames<'a>,
    k: usize,
    work: &'a [Word],
    sorted: &'a [Word],
    nodes: &'a [Word],
    words: &mut [Word],
    list: &mut [Word],
) -> bool
    requires cells { Listable frames.v frames.n frames.points.now k work.now sorted.now nodes.now }
    requires sizes { (length words.old ≡ 4 * frames.n) × (length list.old ≡ frames.n) }
    ensures words { let n = frames.entry.n in words.new ≡ over (over words.old 0 (part words.new 0 k)) (2 * n) (part words.new (2 * n) (2 * n)) }
    ensures list { ClearAgain list.old list.new }
{
    let n = frames.n;
    let cells = listed_cells(frames, k, work, sorted, nodes);
    let (leaders, rest) = words.split_at_mut((LABELS - LEADERS) * n);
    let (runs, marks) = rest.split_at_mut((MARKS - LABELS) * n);
    asked_at_last(
        &cells,
        &mut leaders[..k],
        &mut marks[..k],
        &mut runs[..k],
        list,
    )
}

// Whether trees are asked. (The answer is free: no label depends on whether a cell has a tree.) It works in the words of the leaders, and from 8n up to 10n.
pub fn wanted(frames: &Frames, k: usize, work: &mut [Word]) -> bool
    requires { Grown (geometry frames.now) k work.old × (16 * frames.now.n ≤ length work.old) × Clear work.old (10 * frames.now.n) (6 * frames.now.n) }
    ensures { let n = frames.now.n in work.new ≡ over (over work.old (6 * n) (part work.new (6 * n) k)) (8 * n) (part work.new (8 * n) (2 * n)) }
{
    let n = frames.n;
    let words = &*work;
    let cells = CoreCells {
        grid: CellsGrid {
            frames: *frames,
            k,
            work: &words[..LEADERS * n],
        },
        nodes: &words[NODES * n..],
    };
    if !may_lack(frames.v, n, k) || !has_large(&cells.grid) {
        return false;
    }
    if has_border(&cells) {
        return true;
    }
    cells_grid::listing::sort_cells(frames, k, work);
    let (cells, rest) = work.split_at_mut(LEADERS * n);
    let (words, rest) = rest.split_at_mut(4 * n);
    let (sorted, rest) = rest.split_at_mut(5 * n);
    let (list, nodes) = rest.split_at_mut(n);
    let asked = asked_words(*frames, k, cells, sorted, nodes, words, list);
    lists::clear_words(work, ENDS * n, 5 * n);
    asked
}
