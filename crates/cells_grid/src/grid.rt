// The cells of a run, in the words that say which frames each has (CellsGrid of the source).
ghost use Rattle.std.specs.Prelude.{◌≡◌, not, ◌<◌};
ghost use Rattle.lists.specs.Lists.{numbers, any, how_many};
ghost use Rattle.counting_tree.specs.Given.{geometry};
ghost use Rattle.cells_grid.specs.Cells.{cell_number, members, first, listed, dense};
ghost use Rattle.cells_grid.specs.Arrangement.{cell_at, Arranged, Arranged_prop};

use crate::{PLACES, STARTS};
use counting_tree::Frames;
use lists::Word;

// The k cells of frames, in words.
#[derive(Clone, Copy)]
pub struct CellsGrid<'a> {
    pub frames: Frames<'a>,
    pub k: usize,
    pub work: &'a [Word],
    pub ghost arranged: { Arranged (geometry frames) k work.now } by { Arranged_prop (geometry frames) k work.now },
}

impl CellsGrid<'_> {
    // The number of frame i's cell.
    pub fn cell_of(&self, i: usize) -> usize
        requires { i < self.now.frames.n }
        ensures value { result ≡ cell_number (geometry self.now.frames) i }
        ensures bound { result < self.now.k }
    {
        lists::word(self.work, i)
    }

    // The first frame of cell c.
    pub fn first_of(&self, c: usize) -> usize
        requires { c < self.now.k }
        ensures value { result ≡ cell_at (geometry self.now.frames) c }
        ensures bound { result < self.now.frames.n }
    {
        lists::word(self.work, self.frames.n + c)
    }

    // The frames of cell c.
    pub fn frames_of(&self, c: usize) -> &[Word]
        requires { c < self.now.k }
        ensures { let g = geometry self.now.frames in result.now ≡ members g (cell_at g c) }
    {
        let n = self.frames.n;
        let from = lists::word(self.work, STARTS * n + c);
        let to = super::cell_end(self.work, n, self.k, c);
        &self.work[PLACES * n + from..PLACES * n + to]
    }

    // The first frame of frame i's cell.
    pub(crate) fn own_first(&self, i: usize) -> usize
        requires { i < self.now.frames.n }
        ensures value { result ≡ first (geometry self.now.frames) i }
        ensures bound { result < self.now.frames.n }
    {
        self.first_of(self.cell_of(i))
    }

    // Whether cell c lists cell d.
    pub fn is_listed(&self, c: usize, d: usize) -> bool
        requires { (c < self.now.k) × (d < self.now.k) }
        ensures { let g = geometry self.now.frames in result ≡ listed g (cell_at g c) (cell_at g d) }
    {
        self.frames.near_cells(self.first_of(c), self.first_of(d))
    }

    // How many frames of cell c lie within the tolerance of frame i.
    pub fn points_in_range(&self, i: usize, c: usize) -> usize
        requires { (i < self.now.frames.n) × (c < self.now.k) }
        ensures { let g = geometry self.now.frames in result ≡ how_many (g.within i) (members g (cell_at g c)) }
    {
        let frames = self.frames;
        self.frames_of(c)
            .iter()
            .filter(|j| frames.within(i, **j as usize))
            .count()
    }

    // Whether cell c is dense: it has at least `min_points` frames.
    fn is_dense(&self, c: usize) -> bool
        requires { c < self.now.k }
        ensures { let g = geometry self.now.frames in result ≡ dense g (cell_at g c) }
    {
        self.frames_of(c).len() >= self.frames.v.min_points
    }

    // Whether frame i's cell is dense.
    pub(crate) fn in_dense(&self, i: usize) -> bool
        requires { i < self.now.frames.n }
        ensures { result ≡ dense (geometry self.now.frames) i }
    {
        self.is_dense(self.cell_of(i))
    }

    // Whether every cell is dense.
    pub(crate) fn all_dense(&self) -> bool
        ensures { let g = geometry self.now.frames in result ≡ not (any (λ c. not (dense g (cell_at g c))) (numbers self.now.k)) }
    {
        (0..self.k).all(|c| self.is_dense(c))
    }
}
