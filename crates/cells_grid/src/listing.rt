// The core cells that a cell lists. They are sorted by the blocks of their first frames, 4 × t + 1 wide: so those near a frame lie in the rows around it.
ghost use Rattle.std.specs.Prelude.{◌≡◌, ℕ, ◌+◌, ◌-◌, ◌*◌, ◌^◌, ◌<◌, ◌≤◌, length, get_or};
ghost use Rattle.lists.specs.Lists.{nonzero};
ghost use Rattle.lists.specs.Words.{over, Clear};
ghost use Rattle.counting_tree.specs.Given.{geometry};
ghost use Rattle.blocks.specs.Blocks.{sorted_by};
ghost use Rattle.cells_grid.specs.Cells.{cells, core_cell};
ghost use Rattle.cells_grid.specs.Arrangement.{cell_at, Arranged};
ghost use Rattle.cells_grid.specs.Listing.{reach_of, cell_key, near_in, near_by, list_in, list_from, list_of, later_of, cell_ends, cell_places, unmarked, MarkedRuns};
ghost use Rattle.cells_grid.specs.Passing.{Passes, Passes_prop, left_of, passed_at};

use crate::SortedCells;
use crate::around::Around;
use counting_tree::Frames;
use hyperparams::ValidParams;
use lists::Word;

// From 5n on: a word on the tree of each cell, 0 where it is no core cell.
pub const TREES: usize = 5;

// From 8n on, where marks are given: how many of the sorted cells right after each one have its mark. So these are passed at once.
pub const RUNS: usize = 8;

// From 15n on: the list of one cell.
pub const LIST: usize = 15;

// From 10n on stands where the cells of each bucket end, four words a cell: in all one more than there are buckets, for the cells that are not core.
pub const ENDS: usize = 10;

pub const BUCKETS: usize = 4;

// How far the counts of the first frames of cells that list each other can differ.
fn reach(v: ValidParams) -> u64
    requires { v.t ≤ 65535 }
    ensures { result ≡ reach_of v }
{
    2 * v.t
}

// The bucket of cell c's first frame, of 4 × k − 1; one more where it is no core cell.
fn cell_key(frames: &Frames, k: usize, work: &[Word], c: usize) -> usize
    requires ready { Arranged (geometry frames.now) k work.now × (c < k) × (6 * frames.now.n ≤ length work.now) }
    requires c_value { nonzero (get_or work.now (5 * frames.now.n + c) 0) ≡ core_cell (geometry frames.now) (cell_at (geometry frames.now) c) }
    ensures value { let f = frames.now in result ≡ cell_key f.v f.n f.points.now c }
    ensures upper_bound { result < 4 * k }
{
    let n = frames.n;
    let size = BUCKETS * k - 1;
    if lists::word(work, TREES * n + c) == 0 {
        return size;
    }
    let width = blocks::width(reach(frames.v));
    blocks::key(frames, width, size, lists::word(work, n + c))
}

// Sorts the core cells by the buckets of their first frames' blocks: from 10n on stands then where those of each bucket end, from 14n on the cells.
pub fn sort_cells(frames: &Frames, k: usize, work: &mut [Word])
    requires ready { let f = frames.now in Arranged (geometry f) k work.old × (16 * f.n ≤ length work.old) × Clear work.old (10 * f.n) (6 * f.n) }
    requires by_index { (c : ℕ) → c < k → nonzero (get_or work.old (5 * frames.now.n + c) 0) ≡ core_cell (geometry frames.now) (cell_at (geometry frames.now) c) }
    ensures { let f = frames.now in work.new ≡ sorted_by (cell_key f.v f.n f.points.now) k (4 * k) (10 * f.n) f.n work.old }
{
    let n = frames.n;
    let (cells, rest) = work.split_at_mut(ENDS * n);
    let (ends, rest) = rest.split_at_mut((blocks::PLACES - ENDS) * n);
    let (places, keys) = rest.split_at_mut(n);
    let keys = &mut keys[..k];
    for (c, key) in keys.iter_mut().enumerate() {
        *key = cell_key(frames, k, cells, c) as Word;
    }
    lists::sorting::sort(keys, &mut ends[..BUCKETS * k], &mut places[..k]);
    keys.fill(0);
}

// Marked cells: the mark of each cell, how many of the sorted cells right after each one have its mark, and the mark of those that are passed. So a run of them is passed at once.
#[derive(Clone, Copy)]
struct Passed<'a> {
    marks: &'a [Word],
    runs: &'a [Word],
    mark: usize,
}

// A search for the core cells whose first frames lie near a frame, but for those that are passed.
#[derive(Drop)]
struct Search<'a> {
    around: Around<'a>,
    firsts: &'a [Word],
    ends: &'a [Word],
    places: &'a [Word],
    passed: Option<Passed<'a>>,
    ghost reach_is: { around.reach ≡ reach_of around.frames.now.v },
    ghost firsts_are: { firsts.now ≡ cells (geometry around.frames.now) },
    ghost ended: { let f = around.frames.now in ends.now ≡ cell_ends f.v f.n f.points.now },
    ghost placed: { let f = around.frames.now in places.now ≡ cell_places f.v f.n f.points.now },
    ghost some: { 0 < length places.now },
    ghost runs: { Passes places.now passed } by { Passes_prop places.now passed },
}

impl<'a> Search<'a> {
    fn new(cells: &'a SortedCells<'a>, i: usize, passed: Option<Passed<'a>>) -> Search<'a>
        requires { (i < cells.now.grid.frames.n) × (0 < cells.now.grid.k) × Passes cells.now.places.now passed }
        ensures { (result.around.frames.now ≡ cells.now.grid.frames) × (result.around.i ≡ i) × (result.places.now ≡ cells.now.places.now) × (result.passed ≡ passed.entry) }
    {
        let n = cells.grid.frames.n;
        let around = Around::new(&cells.grid.frames, reach(cells.grid.frames.v), i);
        Search {
            around,
            firsts: &cells.grid.work[n..n + cells.grid.k],
            ends: cells.ends,
            places: cells.places,
            passed,
        }
    }

    // How many of the sorted cells are passed from place p on, where cell d stands.
    fn passed_at(&self, p: usize, d: usize) -> usize
        requires { let s = self.now in (p < length s.places.now) × (d ≡ get_or s.places.now p 0) }
        ensures value { let s = self.now in result ≡ passed_at s.passed p d }
        ensures upper_bound { result ≤ 65536 }
    {
        match self.passed {
            Some(passed) if passed.marks[d] as usize == passed.mark => 1 + passed.runs[p] as usize,
            _ => 0,
        }
    }

    // Whether cell d's number is `after` or more, and its first frame lies near, in row r.
    // (Nearly all cells of a stretch lie in the row, so the distance is asked before the row.)
    fn finds(&self, after: usize, r: usize, d: usize) -> bool
        requires { d < length self.now.places.now }
        ensures { let a = self.now.around in let f = a.frames.now in result ≡ near_in f.v f.n f.points.now a.i after r d }
    {
        if d < after {
            return false;
        }
        let j = self.firsts[d] as usize;
        self.around.frames.near_cells(self.around.i, j) && self.around.has(r, j)
    }

    // Of the sorted cells from `from` up to `end` writes those that are found in row r, with numbers from `after` on, after the first m words of the list.
    // Returns how many there are then. (Most cells are passed, so that is asked first.)
    #[inline(always)]
    fn list_stretch(
        &self,
        after: usize,
        r: usize,
        from: usize,
        end: usize,
        list: &mut [Word],
        m: usize,
    ) -> usize
        requires { let s = self.now in let f = s.around.frames.now in (end ≤ length s.places.now)
            × (m + length (left_of s.passed (near_by f.v f.n f.points.now s.around.i after r s.places.now from end)) ≤ length list.old) }
        ensures value { let s = self.now in let f = s.around.frames.now in result ≡ m + length (left_of s.passed (near_by f.v f.n f.points.now s.around.i after r s.places.now from end)) }
        ensures list { let s = self.now in let f = s.around.frames.now in list.new ≡ over list.old m (left_of s.passed (near_by f.v f.n f.points.now s.around.i after r s.places.now from end)) }
    {
        let mut to = m;
        let mut p = from;
        while p < end {
            let d = self.places[p] as usize;
            let run = self.passed_at(p, d);
            if run > 0 {
                p += run;
                continue;
            }
            if self.finds(after, r, d) {
                list[to] = d as Word;
                to += 1;
            }
            p += 1;
        }
        to
    }

    // Writes the core cells that are found in row r, with numbers from `after` on, after the first m words of the list. Returns how many there are then.
    fn list_row(&self, after: usize, r: usize, list: &mut [Word], m: usize) -> usize
        requires row { r < 2 ^ (self.now.around.frames.now.v.channels - 1) }
        requires room { let s = self.now in let f = s.around.frames.now in m + length (left_of s.passed (list_in f.v f.n f.points.now s.around.i after r)) ≤ length list.old }
        ensures value { let s = self.now in let f = s.around.frames.now in result ≡ m + length (left_of s.passed (list_in f.v f.n f.points.now s.around.i after r)) }
        ensures list { let s = self.now in let f = s.around.frames.now in list.new ≡ over list.old m (left_of s.passed (list_in f.v f.n f.points.now s.around.i after r)) }
    {
        let s = self.around.stretch(self.ends, 0, self.ends.len() - 1, r);
        let more = self.list_stretch(after, r, s.from, s.to, list, m);
        self.list_stretch(after, r, 0, s.rest, list, more)
    }

    // Writes the core cells that are found in the rows from `start` on, and in row `start` only those with numbers from `after` on. Returns how many there are.
    fn list_rows(&self, start: usize, after: usize, list: &mut [Word]) -> usize
        requires start { start < 2 ^ (self.now.around.frames.now.v.channels - 1) }
        requires room { let a = self.now.around in let f = a.frames.now in length (list_from f.v f.n f.points.now a.i after start (2 ^ (f.v.channels - 1) - start)) ≤ length list.old }
        ensures value { let s = self.now in let f = s.around.frames.now in result ≡ length (left_of s.passed (list_from f.v f.n f.points.now s.around.i after start (2 ^ (f.v.channels - 1) - start))) }
        ensures list { let s = self.now in let f = s.around.frames.now in list.new ≡ over list.old 0 (left_of s.passed (list_from f.v f.n f.points.now s.around.i after start (2 ^ (f.v.channels - 1) - start))) }
    {
        let mut m = 0;
        let mut least = after;
        for r in start..blocks::row_count(self.around.frames.v.channels) {
            m = self.list_row(least, r, list, m);
            least = 0;
        }
        m
    }
}

impl SortedCells<'_> {
    // Of the core cells that cell c lists and whose mark is not `mark`, writes those in the rows from its own on, and of its own row those after c. Returns how many there are.
    // (Of two cells that list each other one finds the other so: the other need not look for it.)
    pub fn list_later(
        &self,
        marks: &[Word],
        runs: &[Word],
        mark: usize,
        c: usize,
        list: &mut [Word],
    ) -> usize
        requires cell { (c < self.now.grid.k) × (self.now.grid.k ≤ length list.old) }
        requires lengths { let zs = self.now.places.now in (length marks.now ≡ length zs) × (length runs.now ≡ length zs) }
        requires marked_runs { MarkedRuns self.now.places.now marks.now runs.now mark }
        ensures value { let f = self.now.grid.frames in result ≡ length (unmarked marks.now mark (later_of f.v f.n f.points.now c)) }
        ensures list { let f = self.now.grid.frames in list.new ≡ over list.old 0 (unmarked marks.now mark (later_of f.v f.n f.points.now c)) }
    {
        let passed = Passed { marks, runs, mark };
        let search = Search::new(self, self.grid.first_of(c), Some(passed));
        search.list_rows(search.around.own_row(), c + 1, list)
    }

    // Writes the core cells that cell c lists. Returns how many there are.
    pub fn list_cells(&self, c: usize, list: &mut [Word]) -> usize
        requires { (c < self.now.grid.k) × (self.now.grid.k ≤ length list.old) }
        ensures value { let f = self.now.grid.frames in result ≡ length (list_of f.v f.n f.points.now c) }
        ensures list { let f = self.now.grid.frames in list.new ≡ over list.old 0 (list_of f.v f.n f.points.now c) }
    {
        Search::new(self, self.grid.first_of(c), None).list_rows(0, 0, list)
    }
}
