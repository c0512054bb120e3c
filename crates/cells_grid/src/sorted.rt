// The frames of a run, sorted by their blocks, beside their cells: so it can be asked which frames are core.
ghost use Rattle.std.specs.Prelude.{◌≡◌, ◌*◌, ◌<◌, leb};
ghost use Rattle.lists.specs.Lists.{numbers, how_many};
ghost use Rattle.lists.specs.Sorting.{Sorted};
ghost use Rattle.counting_tree.specs.Given.{geometry};
ghost use Rattle.blocks.specs.SortedLaws.{Sorted_prop};
ghost use Rattle.cells_grid.specs.Cells.{neighbour, core};
ghost use Rattle.cells_grid.specs.Crowding.{frame_key};
ghost use Rattle.cells_grid.specs.Pairs.{others};

use crate::crowding::Search;
use crate::grid::CellsGrid;
use lists::Word;

// The cells, and ten words a frame: first the frames by bucket, from 2n on where those of each bucket end.
#[derive(Clone, Copy)]
pub(crate) struct SortedFrames<'a, 'b> {
    pub(crate) grid: CellsGrid<'a>,
    pub(crate) sorted: &'b [Word],
    ghost by_block: { Sorted (frame_key grid.frames.v grid.frames.n grid.frames.points.now) grid.frames.n (8 * grid.frames.n) (2 * grid.frames.n) 0 sorted.now } by { Sorted_prop (frame_key grid.frames.v grid.frames.n grid.frames.points.now) grid.frames.n (8 * grid.frames.n) (2 * grid.frames.n) 0 sorted.now },
}

impl SortedFrames<'_, '_> {
    // Whether the cells on the list of frame i's cell hold `min_points` frames within the tolerance of frame i.
    pub(crate) fn is_crowded(&self, i: usize) -> bool
        requires { i < self.now.grid.frames.n }
        ensures { let f = self.now.grid.frames in result ≡ leb (geometry f).least (how_many (neighbour (geometry f) i) (numbers f.n)) }
    {
        let frames = self.grid.frames;
        frames.v.min_points <= frames.n && Search::new(self, i).finds_enough()
    }

    // Whether frame i is core.
    pub(crate) fn core_frame(&self, i: usize) -> bool
        requires { i < self.now.grid.frames.n }
        ensures { result ≡ core (geometry self.now.grid.frames) i }
    {
        self.grid.in_dense(i) || self.is_crowded(i)
    }

    // The same where its neighbours besides itself are counted.
    pub(crate) fn core_counted(&self, i: usize, count: usize) -> bool
        requires { let f = self.now.grid.frames in (i < f.n) × (count ≡ others f.v f.n f.points.now i) }
        ensures { result ≡ core (geometry self.now.grid.frames) i }
    {
        self.grid.in_dense(i) || 1 + count >= self.grid.frames.v.min_points
    }
}
