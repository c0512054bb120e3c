// The spans of cells. Two cells of many frames whose spans lie out of reach of each other do not touch: this is told with no frame of the one compared to one of the other.
// Counts are taken raised by 2^15: so they are whole numbers from 0 on.
ghost use Rattle.std.specs.Prelude.{◌≡◌, true, ℕ, ◌<◌, ◌≤◌, ◌^◌, get_or};
ghost use Rattle.core_cells.specs.Settling.{Apart};
ghost use Rattle.core_cells.specs.Spans as Definitions;
ghost use Rattle.core_cells.specs.Spans.{raised_at, LowEnds, lowest, highest, square_gap, cell_span, apart_by_spans};

use crate::CoreCells;
use crate::asking::out_of_reach;
use counting_tree::Frames;

// A cell with more frames than this has its span asked.
const MANY: usize = 64;

// The lowest and the highest raised count of some frames in each channel, with zeros in the channels that are not used.
#[derive(Clone, Copy)]
pub struct Span {
    pub low: [u64; 4],
    pub high: [u64; 4],
}

// The raised counts of frame i: blocks of the width 1 begin at them.
fn raised_at(frames: &Frames, i: usize) -> [u64; 4]
    requires { i < frames.now.n }
    ensures value { let f = frames.now in result ≡ raised_at f.v f.n f.points.now i }
    ensures bound { (k : ℕ) → k < 4 → get_or result k 0 < 65536 }
{
    blocks::edges_at(frames, 1, 0, i)
}

// The square of how far two ranges of raised counts lie apart, 0 where they meet.
fn gap(low: u64, high: u64, low2: u64, high2: u64) -> u64
    requires { (low < 65536) × (low2 < 65536) }
    ensures value { result ≡ Definitions.gap low high low2 high2 }
    ensures bound { result ≤ 2 ^ 32 }
{
    let apart = if high < low2 {
        low2 - high
    } else {
        low.saturating_sub(high2)
    };
    apart * apart
}

impl Span {
    // The span of the frames of this one, and of one more with these raised counts.
    fn with(self, counts: [u64; 4]) -> Span
        ensures low { result.low ≡ lowest self.low counts }
        ensures high { result.high ≡ highest self.high counts }
    {
        Span {
            low: std::array::from_fn(|i| self.low[i].min(counts[i])),
            high: std::array::from_fn(|i| self.high[i].max(counts[i])),
        }
    }

    // The sum of the squares of how far two spans lie apart in each channel: no frames of theirs are nearer.
    fn square_gap(self, other: Span) -> u64
        requires { LowEnds self × LowEnds other }
        ensures value { result ≡ square_gap self other }
        ensures bound { result ≤ 2 ^ 34 }
    {
        let mut square = 0;
        for i in 0..4 {
            square += gap(self.low[i], self.high[i], other.low[i], other.high[i]);
        }
        square
    }
}

impl CoreCells<'_> {
    // The span of cell c.
    fn span_of(&self, c: usize) -> Span
        requires { c < self.now.grid.k }
        ensures value { let f = self.now.grid.frames in result ≡ cell_span f.v f.n f.points.now c }
        ensures bound { LowEnds result }
    {
        let first = raised_at(&self.grid.frames, self.grid.first_of(c));
        let mut span = Span {
            low: first,
            high: first,
        };
        for x in self.grid.frames_of(c) {
            span = span.with(raised_at(&self.grid.frames, *x as usize));
        }
        span
    }

    // Whether c and d are cells of many frames whose spans lie out of reach: then no core frame of the one has a count in the tree of the other.
    pub fn apart(&self, c: usize, d: usize) -> bool
        requires { (c < self.now.grid.k) × (d < self.now.grid.k) }
        ensures value { let f = self.now.grid.frames in result ≡ apart_by_spans f.v f.n f.points.now c d }
        ensures tells { let f = self.now.grid.frames in result ≡ true → Apart f.v f.n f.points.now c d }
    {
        if self.grid.frames_of(c).len() <= MANY || self.grid.frames_of(d).len() <= MANY {
            return false;
        }
        let one = self.span_of(c);
        let two = self.span_of(d);
        out_of_reach(
            self.grid.frames.v.t,
            self.grid.frames.v.s,
            one.square_gap(two),
        )
    }
}
