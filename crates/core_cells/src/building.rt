// Building the trees of the core cells, in words of one lent slice.
ghost use Rattle.std.specs.Prelude.{◌≡◌, [], ◌∷◌, ◌+◌, ◌*◌, ◌<◌, ◌≤◌, length, get_or};
ghost use Rattle.lists.specs.Lists.{nonzero, keep, Below};
ghost use Rattle.lists.specs.Words.{over, column, Clear};
ghost use Rattle.hyperparams.specs.Params.{levels, work_words};
ghost use Rattle.counting_tree.specs.Given.{geometry};
ghost use Rattle.cells_grid.specs.Arrangement.{Cored};
ghost use Rattle.core_cells.specs.Forest.{is_marked, tree_frames, path_limit, tree_size, tree_words, nodes_to, forest_to, tree_word};

use cells_grid::CellsGrid;
use cells_grid::listing::TREES;
use counting_tree::Frames;
use hyperparams::MAX_FRAMES;
use lists::Word;

// The regions, of one word a frame: from 5n on where the tree of each cell begins, from 10n on the core frames of one cell,
// from 11n and 12n on what building its tree needs; these three are 0 before and after. From 16n on the nodes, of four words.
const GATHERED: usize = 10;

const COPY: usize = 11;

const SCRATCH: usize = 12;

pub const NODES: usize = 16;

// A cell with at most so many core frames has no tree in a run: its frames' own paths are taken.
pub const PATHS: usize = 64;

// With so many frames or more to a cell, on average, no tree is built at first.
const LARGE: usize = 16;

// Copies those of some frames that are core. Returns how many there are.
fn copy_core(words: &[Word], n: usize, frames: &[Word], gathered: &mut [Word]) -> usize
    requires { Below n frames.now × (5 * n ≤ length words.now) × (length frames.now ≤ length gathered.old) }
    ensures value { result ≡ length (keep (is_marked words.now n) frames.now) }
    ensures work_after { gathered.new ≡ over gathered.old 0 (keep (is_marked words.now n) frames.now) }
{
    let mut m = 0;
    for i in frames {
        if cells_grid::is_core(words, n, *i as usize) {
            gathered[m] = *i;
            m += 1;
        }
    }
    m
}

// Copies the core frames of cell c to 10n on. Returns how many there are.
fn gather_core(frames: &Frames, k: usize, work: &mut [Word], c: usize) -> usize
    requires { let f = frames.now in Cored (geometry f) k work.old × (c < k) × (11 * f.n ≤ length work.old) }
    ensures value { result ≡ length (tree_frames (geometry frames.now) c) }
    ensures work_after { work.new ≡ over work.old (10 * frames.now.n) (tree_frames (geometry frames.now) c) }
{
    let n = frames.n;
    let (words, gathered) = work.split_at_mut(GATHERED * n);
    let grid = CellsGrid {
        frames: *frames,
        k,
        work: words,
    };
    copy_core(grid.work, n, grid.frames_of(c), gathered)
}

// Writes the tree of cell c from `at` on, if the cell has more than `few` core frames, and the word that says where it begins:
// 0 where it has no core frame, 1 where it has no tree. Returns the place after it.
fn build_tree(
    frames: &Frames,
    k: usize,
    work: &mut [Word],
    few: usize,
    c: usize,
    at: usize,
) -> usize
    requires ready { Cored (geometry frames.now) k work.old }
    requires c_lt_k { (c < k) × (at ≡ 16 * frames.now.n + 4 * nodes_to (geometry frames.now) few c) }
    requires s_in_bounds { let f = frames.now in (work_words f.n f.v.s ≤ length work.old) × Clear work.old (10 * f.n) (3 * f.n) }
    ensures value { result ≡ at + 4 * tree_size (geometry frames.now) few c }
    ensures work_after { let g = geometry frames.now in work.new ≡ over (over work.old (5 * frames.now.n + c) (tree_word g few c ∷ [])) at (tree_words g few c) }
{
    let n = frames.n;
    let lo = GATHERED * n;
    let m = gather_core(frames, k, work, c);
    let slot = TREES * n + c;
    if m == 0 {
        work[slot] = 0;
        return at;
    }
    if m <= few {
        lists::clear_words(work, lo, m);
        work[slot] = 1;
        return at;
    }
    let (front, rest) = work.split_at_mut(COPY * n);
    let (copy, rest) = rest.split_at_mut(n);
    let (scratch, nodes) = rest.split_at_mut(at - SCRATCH * n);
    let members = &front[lo..lo + m];
    let size = tree_structure::build_structure(frames, members, copy, scratch, nodes);
    lists::clear_words(work, lo, m);
    work[slot] = (2 + (at - NODES * n) / 4) as Word;
    at + 4 * size
}

// With more core frames than this a cell has a tree in a run, of k cells. None has where s is 0, since root boxes settle nearly everything then,
// nor where there is one cell, since nothing is asked of it, nor at first where cells have sixteen frames or more on average:
// there trees are built only if they are asked.
pub fn path_limit(s: usize, n: usize, k: usize) -> usize
    ensures { result ≡ path_limit (levels s) n k }
{
    if s == 0 || k <= 1 || k <= n / LARGE {
        return MAX_FRAMES;
    }
    PATHS
}

// Writes the trees of the cells with more than `few` core frames, and where the tree of each cell begins.
pub fn build_trees(frames: &Frames, k: usize, work: &mut [Word], few: usize)
    requires ready { Cored (geometry frames.now) k work.old }
    requires s_in_bounds { let f = frames.now in (work_words f.n f.v.s ≤ length work.old) × Clear work.old (10 * f.n) (3 * f.n) }
    ensures { let g = geometry frames.now in work.new ≡ over (over work.old (5 * frames.now.n) (column (tree_word g few) k)) (16 * frames.now.n) (forest_to g few k) }
{
    let n = frames.n;
    let mut at = NODES * n;
    for c in 0..k {
        at = build_tree(frames, k, work, few, c, at);
    }
}

// Whether cell c is a core cell.
pub fn is_core_cell(work: &[Word], n: usize, c: usize) -> bool
    requires { 5 * n + c < length work.now }
    ensures { result ≡ nonzero (get_or work.now (5 * n + c) 0) }
{
    lists::word(work, TREES * n + c) != 0
}
