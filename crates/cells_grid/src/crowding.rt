// Whether a frame has enough frames near it. All frames are sorted by blocks 2 × t + 1 wide: so the frames within the tolerance of a frame lie in the rows around it.
ghost use Rattle.std.specs.Prelude.{◌≡◌, ◌++◌, ◌+◌, ◌-◌, ◌*◌, ◌^◌, ◌<◌, ◌≤◌, min, leb, length, replicate};
ghost use Rattle.lists.specs.Lists.{numbers, how_many, Below};
ghost use Rattle.lists.specs.Sorting.{Sorted};
ghost use Rattle.lists.specs.Words.{over, Clear};
ghost use Rattle.counting_tree.specs.Given.{geometry, frame_of};
ghost use Rattle.blocks.specs.Blocks as Blocks;
ghost use Rattle.blocks.specs.Blocks.{edges_of, sorted_by};
ghost use Rattle.cells_grid.specs.Cells as Cells;
ghost use Rattle.cells_grid.specs.Cells.{neighbour};
ghost use Rattle.cells_grid.specs.Crowding.{frame_key, frames_near, neighbour_in, neighbours_in};

use crate::CellsGrid;
use crate::around::Around;
use crate::sorted::SortedFrames;
use counting_tree::Frames;
use lists::Word;

// From 16n on stands where the frames of each bucket end, eight words a frame: in all one more than there are buckets. (With so many, few frames of other rows fall into a stretch.)
pub const ENDS: usize = 16;

pub const BUCKETS: usize = 8;

// The sorted frames, their keys and those ends stand in so many words a frame, from 14n on.
pub const WORDS: usize = ENDS + BUCKETS - blocks::PLACES;

// Among the sorted frames and what is beside them those ends stand from 2n on.
pub(crate) const SORTED_ENDS: usize = ENDS - blocks::PLACES;

// Sorts all frames by the buckets of their blocks: after it `crowded` can be asked.
pub fn sort_frames(frames: &Frames, work: &mut [Word])
    requires { let f = frames.now in (24 * f.n ≤ length work.old) × Clear work.old (14 * f.n) (10 * f.n) }
    ensures { let f = frames.now in work.new ≡ sorted_by (frame_key f.v f.n f.points.now) f.n (8 * f.n) (16 * f.n) f.n work.old }
{
    let n = frames.n;
    let width = blocks::width(frames.v.t);
    let (_, rest) = work.split_at_mut(blocks::PLACES * n);
    let (places, rest) = rest.split_at_mut(n);
    let (keys, ends) = rest.split_at_mut(n);
    for (j, key) in keys.iter_mut().enumerate() {
        *key = blocks::key(frames, width, BUCKETS * n - 1, j) as Word;
    }
    lists::sorting::sort(keys, &mut ends[..BUCKETS * n], places);
    keys.fill(0);
}

// Whether the cells on the list of frame i's cell hold `min_points` frames within the tolerance of frame i, where the words of the cells hold the sorted frames too.
pub fn crowded(grid: &CellsGrid, i: usize) -> bool
    requires ready { i < grid.now.frames.n }
    requires by_block { let f = grid.now.frames in Sorted (frame_key f.v f.n f.points.now) f.n (8 * f.n) (16 * f.n) (14 * f.n) grid.now.work.now × (24 * f.n ≤ length grid.now.work.now) }
    ensures { let f = grid.now.frames in result ≡ leb (geometry f).least (how_many (neighbour (geometry f) i) (numbers f.n)) }
{
    let n = grid.frames.n;
    let sorted = SortedFrames {
        grid: *grid,
        sorted: &grid.work[blocks::PLACES * n..(blocks::PLACES + WORDS) * n],
    };
    sorted.is_crowded(i)
}

// Whether frame j is a neighbour of frame i in row m of those that begin at `first`; `own` is the first frame of frame i's cell.
// (Nearly all frames of a stretch lie in the row, so the distance is asked first.)
#[inline(always)]
pub fn is_neighbour(
    grid: &CellsGrid,
    first: [u64; 4],
    m: usize,
    own: usize,
    i: usize,
    j: usize,
) -> bool
    requires ready { let f = grid.now.frames in (i < f.n) × (own ≡ Cells.first (geometry f) i) }
    requires first_value { let f = grid.now.frames in (first ≡ over (replicate 4 0) 0 (edges_of (Blocks.width f.v.t) f.v.t (frame_of f i))) × Below 65536 first }
    requires j_lt_n { j < grid.now.frames.n }
    ensures { let f = grid.now.frames in result ≡ neighbour_in f.v f.n f.points.now i m j }
{
    let frames = &grid.frames;
    let width = blocks::width(frames.v.t);
    frames.within(i, j)
        && blocks::in_row(frames, width, first, m, j)
        && frames.near_cells(own, grid.own_first(j))
}

// A search for the neighbours of a frame: the rows around it, and the first frame of its cell.
#[derive(Drop)]
pub(crate) struct Search<'a> {
    sorted: SortedFrames<'a, 'a>,
    pub(crate) around: Around<'a>,
    own: usize,
    ghost same: { let a = around.frames.now in let f = sorted.grid.frames in (a.v ≡ f.v) × (a.n ≡ f.n) × (a.points.now ≡ f.points.now) },
    ghost reach_is: { around.reach ≡ around.frames.now.v.t },
    ghost own_is: { own ≡ Cells.first (geometry around.frames.now) around.i },
}

impl<'a> Search<'a> {
    pub(crate) fn new(sorted: &'a SortedFrames<'a, 'a>, i: usize) -> Search<'a>
        requires { i < sorted.now.grid.frames.n }
        ensures { (result.around.frames.now ≡ sorted.now.grid.frames) × (result.around.i ≡ i) }
    {
        let frames = &sorted.grid.frames;
        let around = Around::new(frames, frames.v.t, i);
        let own = sorted.grid.own_first(i);
        Search {
            sorted: *sorted,
            around,
            own,
        }
    }

    // Whether frame j is a neighbour, and in row m.
    pub(crate) fn is_neighbour(&self, m: usize, j: usize) -> bool
        requires { j < self.now.around.frames.now.n }
        ensures { let a = self.now.around in let f = a.frames.now in result ≡ neighbour_in f.v f.n f.points.now a.i m j }
    {
        let around = &self.around;
        is_neighbour(&self.sorted.grid, around.first, m, self.own, around.i, j)
    }

    // The sorted frames of row m, in two stretches.
    pub(crate) fn row(&self, m: usize) -> (&[Word], &[Word])
        requires { m < 2 ^ (self.now.around.frames.now.v.channels - 1) }
        ensures { let a = self.now.around in let f = a.frames.now in result.0.now ++ result.1.now ≡ frames_near f.v f.n f.points.now a.i m }
    {
        let n = self.around.frames.n;
        let sorted = self.sorted.sorted;
        let s = self
            .around
            .stretch(sorted, SORTED_ENDS * n, BUCKETS * n - 1, m);
        (&sorted[s.from..s.to], &sorted[..s.rest])
    }

    // `count` and the neighbours among these frames of row m, but no more than `min_points`: the count ends there.
    fn count_stretch(&self, m: usize, stretch: &[Word], count: usize) -> usize
        requires { let f = self.now.around.frames.now in (count < f.v.min_points) × Below f.n stretch.now }
        ensures { let a = self.now.around in let f = a.frames.now in result ≡ min f.v.min_points (count + how_many (neighbour_in f.v f.n f.points.now a.i m) stretch.now) }
    {
        let least = self.around.frames.v.min_points;
        let mut sum = count;
        for j in stretch {
            if self.is_neighbour(m, *j as usize) {
                sum += 1;
                if sum >= least {
                    return sum;
                }
            }
        }
        sum
    }

    // `count` and the neighbours in row m, but no more than `min_points`.
    fn count_row(&self, m: usize, count: usize) -> usize
        requires { let f = self.now.around.frames.now in (m < 2 ^ (f.v.channels - 1)) × (count < f.v.min_points) }
        ensures { let a = self.now.around in let f = a.frames.now in result ≡ min f.v.min_points (count + neighbours_in f.v f.n f.points.now a.i m) }
    {
        let (stretch, rest) = self.row(m);
        let more = self.count_stretch(m, stretch, count);
        if more >= self.around.frames.v.min_points {
            return more;
        }
        self.count_stretch(m, rest, more)
    }

    // Whether the frame has `min_points` neighbours. (Most of them lie in the row in which it lies itself: the count begins there.)
    pub(crate) fn finds_enough(&self) -> bool
        ensures { let a = self.now.around in let g = geometry a.frames.now in result ≡ leb g.least (how_many (neighbour g a.i) (numbers a.frames.now.n)) }
    {
        let frames = self.around.frames;
        let start = self.around.own_row();
        let rows = blocks::row_count(frames.v.channels);
        let mut count = 0;
        for r in 0..rows {
            count = self.count_row(blocks::turned(start, r, rows), count);
            if count >= frames.v.min_points {
                return true;
            }
        }
        false
    }
}
