// The frames of the lent points, and what cells and trees ask of two of them: the geometry, on the first n frames.
ghost use Rattle.std.specs.Prelude.{◌≡◌, cond, map, ◌+◌, ◌*◌, ◌^◌, ◌≤◌, ◌<◌, pos, ◌+ℤ◌, length, take};
ghost use Rattle.std.specs.Float.{binary64};
ghost use Rattle.std.specs.Float.Ieee.{of_int};
ghost use Rattle.lists.specs.Words.{part};
ghost use Rattle.counting_tree.specs.Frames as Lists;
ghost use Rattle.counting_tree.specs.Frames.{apart};
ghost use Rattle.counting_tree.specs.Box.{sum_from};
ghost use Rattle.counting_tree.specs.Settled.{settled_by};
ghost use Rattle.counting_tree.specs.Clear.{clearly_apart, clearly_between, clearly_crossing};
ghost use Rattle.counting_tree.specs.NearBox.{reach, close_to, near_box};
ghost use Rattle.hyperparams.specs.Params.{float};
ghost use Rattle.counting_tree.specs.Grid.{centre, indexes};
ghost use Rattle.counting_tree.specs.Geometry.{frame, N, same_ints, box_at};
ghost use Rattle.counting_tree.specs.Arrays.{placed, Placed};
ghost use Rattle.counting_tree.specs.Radius.{Side};
ghost use Rattle.counting_tree.specs.Indexes.{LevelSide};
ghost use Rattle.counting_tree.specs.Domain.{Counts};
ghost use Rattle.counting_tree.specs.Given.{geometry, frame_of, frame_list};

use super::boxes::{box_of, determine_intersection, square_sum};
use super::grid::{cell_index, half_side};
use crate::{Box, Frames, IntersectionType};

// "at most 4 × t × t": the factor of the lists.
const SHORT: u64 = 4;

// What f gives of each count of a frame, with `rest` in the channels that are not used.
pub fn map_counts<T: Copy, F: Fn(i16) -> T>(frame: &[i16], rest: T, f: F) -> [T; 4]
    requires few { length frame.now ≤ 4 }
    requires callable { F.IsAlwaysCallable f }
    ensures { Placed (F.post f) frame.now rest result (length frame.now) }
{
    let mut row = [rest; 4];
    for k in 0..4 {
        if k < frame.len() {
            row[k] = f(frame[k]);
        }
    }
    row
}

// Frame i, with zeros in the channels that are not used.
pub fn frame_at(points: &[i16], channels: usize, i: usize) -> [i16; 4]
    requires channels { channels ≤ 4 }
    requires inside { i * channels + channels ≤ length points.now }
    ensures { result ≡ placed (part points.now (i * channels) channels) }
{
    let start = i * channels;
    map_counts(&points[start..start + channels], 0, |c| c)
}

// The counts as floats.
fn floats(frame: [i16; 4]) -> [f64; 4]
    ensures { result ≡ map (of_int binary64) frame }
{
    map_counts(&frame, 0.0, |c| c as f64)
}

// c + 2^15
pub fn raised(c: i16) -> u64
    ensures value { pos result ≡ c +ℤ pos 32768 }
    ensures bound { result < 65536 }
{
    (c as i64 + 32768) as u64
}

// |a − b|, squared.
fn square(a: i16, b: i16) -> u64
    ensures value { result ≡ apart a b * apart a b }
    ensures bound { result ≤ 2 ^ 32 }
{
    let d = a as i64 - b as i64;
    (d * d) as u64
}

impl Frames<'_> {
    // "N the sum of squared differences" of frames i and j.
    pub fn square_apart(&self, i: usize, j: usize) -> u64
        requires { (i < self.now.n) × (j < self.now.n) }
        ensures value { result ≡ N self.now.v (frame_list self.now) i j }
        ensures bound { result ≤ 2 ^ 34 }
        ensures counts { let fs = frame_list self.now in Counts (frame self.now.v fs i) × Counts (frame self.now.v fs j) }
    {
        let a = self.frame(i);
        let b = self.frame(j);
        let mut sum = 0;
        for k in 0..4 {
            if k < self.v.channels {
                sum += square(a[k], b[k]);
            }
        }
        sum
    }

    // Frame i.
    pub fn frame(&self, i: usize) -> &[i16]
        requires { i < self.now.n }
        ensures value { result.now ≡ frame_of self.now i }
        ensures long { length result.now ≡ self.now.v.channels }
        ensures few { length result.now ≤ 4 }
    {
        let start = i * self.v.channels;
        &self.points[start..start + self.v.channels]
    }

    // The indexes of frame i at a side, with zeros in the channels that are not used.
    pub fn indexes_at(&self, side: f64, i: usize) -> [i64; 4]
        requires { (i < self.now.n) × Side side }
        ensures { result ≡ placed (indexes side (frame_of self.now i)) }
    {
        map_counts(self.frame(i), 0, |c| cell_index(side, c))
    }

    // Whether frame j has the indexes `at` at a side: the first channel that differs settles it.
    fn has_indexes(&self, side: f64, at: [i64; 4], j: usize) -> bool
        requires { (j < self.now.n) × Side side }
        ensures { result ≡ same_ints (take self.now.v.channels at) (indexes side (frame_of self.now j)) }
    {
        let frame = self.frame(j);
        for k in 0..4 {
            if k < self.v.channels && cell_index(side, frame[k]) != at[k] {
                return false;
            }
        }
        true
    }
}

// 1 where a count lies more than `reach` from the centre, else 0.
fn off(x: i16, centre: f64, reach: f64) -> u64
    ensures value { result ≡ cond (close_to reach centre x) 0 1 }
    ensures bound { result ≤ 1 }
{
    let d = x as f64 - centre;
    if d < -reach {
        return 1;
    }
    if reach < d {
        return 1;
    }
    0
}

impl Frames<'_> {
    // Whether frame j lies at most half a side and 1 from the centre of `place` in each channel. The sum is tested once: a branch for each channel could not be predicted.
    fn near_box(&self, place: Box, j: usize) -> bool
        requires { j < self.now.n }
        ensures { result ≡ near_box (reach place.side) (take self.now.v.channels place.centre) (frame_of self.now j) }
    {
        let frame = self.frame(j);
        let reach = half_side(place.side) + 1.0;
        let mut far = 0;
        for k in 0..4 {
            if k < self.v.channels {
                far += off(frame[k], place.centre[k], reach);
            }
        }
        far == 0
    }

    // Whether frame j has the indexes `at` at the side of `place`, which is their box: a frame that is not near the box has not, and no index has to be worked out.
    pub fn shares_box(&self, at: [i64; 4], place: Box, j: usize) -> bool
        requires ready { (j < self.now.n) × Side place.side }
        requires centre_value { take self.now.v.channels place.centre ≡ map (centre place.side) (take self.now.v.channels at) }
        ensures { result ≡ same_ints (take self.now.v.channels at) (indexes place.side (frame_of self.now j)) }
    {
        if !self.near_box(place, j) {
            return false;
        }
        self.has_indexes(place.side, at, j)
    }

    // Whether the cells with the first frames c and d list each other.
    pub fn near_cells(&self, c: usize, d: usize) -> bool
        requires { (c < self.now.n) × (d < self.now.n) }
        ensures { result ≡ (geometry self.now).near c d }
    {
        self.square_apart(c, d) <= SHORT * (self.v.t * self.v.t)
    }

    // Whether frames i and j lie at most the tolerance apart: between frames "distance ≤ t" is "sum of squares ≤ t × t".
    pub fn within(&self, i: usize, j: usize) -> bool
        requires { (i < self.now.n) × (j < self.now.n) }
        ensures { result ≡ (geometry self.now).within i j }
    {
        self.square_apart(i, j) <= self.v.t * self.v.t
    }
}

// Whether the sum of squares to the centre of a box is over (t + h)² by 1, with h half the diagonal: the distance less h is then over t, and no root is needed to tell.
fn clearly_apart(sum: f64, h: f64, t: f64) -> bool
    ensures { result ≡ clearly_apart t h sum }
{
    let far = t + h;
    far * far + 1.0 < sum
}

// Whether it is under (t + a)² by 1 and over (appx − b)² by 1: the distance is then under t + a and over appx − b.
fn clearly_between(sum: f64, a: f64, b: f64, t: f64, appx: f64) -> bool
    ensures { result ≡ clearly_between t appx a b sum }
{
    let above = t + a;
    let below = appx - b;
    sum + 1.0 < above * above && below * below + 1.0 < sum
}

// Whether it tells that the box is cut, with e half the side: the distance less e is at most t, and with h it is over appx; or less h it is at most t, and with e it is over appx, where the farthest corner is too, and no corner has to be looked at.
fn clearly_crossing(sum: f64, h: f64, e: f64, t: f64, appx: f64) -> bool
    ensures { result ≡ clearly_crossing t appx h e sum }
{
    clearly_between(sum, e, h, t, appx) || clearly_between(sum, h, e, t, appx)
}

impl Frames<'_> {
    // How the box of a level's side in which frame x lies stands to frame q. The root is taken, and corners are looked at, only where the sum of squares tells nothing.
    pub fn classify(&self, q: usize, side: f64, x: usize) -> IntersectionType
        requires { let f = self.now in LevelSide f.v side × (q < f.n) × (x < f.n) }
        ensures { result ≡ box_at self.now.v (frame_list self.now) side q x }
    {
        let a = frame_at(self.points, self.v.channels, q);
        let b = frame_at(self.points, self.v.channels, x);
        let place = box_of(b, side, self.v.channels);
        let centre = place.centre;
        let from = floats(a);
        let sum = square_sum(from, centre, self.v.channels);
        let h = half_side(side * ieee754::root_of_small(self.v.channels));
        if clearly_apart(sum, h, self.v.tolerance) {
            return IntersectionType::Disjoint;
        }
        if clearly_crossing(
            sum,
            h,
            half_side(side),
            self.v.tolerance,
            self.v.appx_tolerance,
        ) {
            return IntersectionType::Intersecting;
        }
        determine_intersection(
            place,
            from,
            self.v.channels,
            self.v.tolerance,
            self.v.appx_tolerance,
        )
    }

    // Whether the root box `place` is FullyCovered by the ball of frame q, or else Disjoint from it, as far as whole numbers tell with no root.
    pub fn settled(&self, q: usize, place: Box) -> Option<bool>
        requires { q < self.now.n }
        ensures { result ≡ settled_by self.now.v (sum_from (float 0) (Lists.floats (frame_of self.now q)) (take self.now.v.channels place.centre)) }
    {
        let a = frame_at(self.points, self.v.channels, q);
        let centre = place.centre;
        let sum = square_sum(floats(a), centre, self.v.channels);
        // the distance less half the diagonal, t / 2, is over t
        let far = 9 * (self.v.t * self.v.t) + 1;
        if sum * 4.0 >= far as f64 {
            return Some(false);
        }
        // with half the diagonal it is at most the extended tolerance
        let two = 1u64 << self.v.s;
        let reach = self.v.t * (two + 2);
        if (sum + 1.0) * ((4 * (two * two)) as f64) <= (reach * reach) as f64 {
            return Some(true);
        }
        None
    }
}
