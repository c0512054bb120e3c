// The box of a frame, the distance, and the test of a box against a frame: on the first 1 to 4 of four coordinates.
ghost use Rattle.std.specs.Prelude.{◌≡◌, map, ◌^◌, ◌≤◌, take};
ghost use Rattle.hyperparams.specs.Params.{float};
ghost use Rattle.counting_tree.specs.Grid.{half};
ghost use Rattle.counting_tree.specs.Box as Definitions;
ghost use Rattle.counting_tree.specs.Box.{sum_from, farthest, intersection};
ghost use Rattle.counting_tree.specs.Arrays.{box_of, row_of, rows_of};
ghost use Rattle.counting_tree.specs.Radius.{Side};

use super::grid::{cell_center, half_side};
use super::points::map_counts;
use crate::{Box, IntersectionType};

// The centre of the box in which a frame lies, with zeros after it.
fn centre_of(frame: [i16; 4], side: f64, channels: usize) -> [f64; 4]
    requires side { Side side }
    requires channels { channels ≤ 4 }
    ensures { result ≡ (box_of channels side frame).centre }
{
    map_counts(&frame[..channels], 0.0, |c| cell_center(side, c))
}

// The box in which a frame lies.
pub fn box_of(frame: [i16; 4], side: f64, channels: usize) -> Box
    requires side { Side side }
    requires channels { channels ≤ 4 }
    ensures { result ≡ box_of channels side frame }
{
    let centre = centre_of(frame, side, channels);
    Box { centre, side }
}

// "differences squared and added from channel 0 up, each operation rounded once"
pub fn square_sum(q: [f64; 4], p: [f64; 4], channels: usize) -> f64
    requires { channels ≤ 4 }
    ensures { result ≡ sum_from (float 0) (take channels q) (take channels p) }
{
    let mut sum = 0.0f64;
    for k in 0..4 {
        if k < channels {
            let apart = q[k] - p[k];
            sum = sum + apart * apart;
        }
    }
    sum
}

// "Distance: .., then the root."
pub fn distance(q: [f64; 4], p: [f64; 4], channels: usize) -> f64
    requires { channels ≤ 4 }
    ensures { result ≡ Definitions.distance (take channels q) (take channels p) }
{
    ieee754::root(square_sum(q, p, channels))
}

// Corner k of a box: coordinate i lies e below the centre's where bit i of k is 0, else e above it.
fn corner(centre: [f64; 4], e: f64, channels: usize, k: usize) -> [f64; 4]
    requires { channels ≤ 4 }
    ensures { result ≡ row_of channels centre e k }
{
    let mut row = centre;
    let mut bits = k;
    for c in &mut row[..channels] {
        *c = if bits % 2 == 0 { *c - e } else { *c + e };
        bits /= 2;
    }
    row
}

// How many corners a box has.
fn corner_count(channels: usize) -> usize
    requires { channels ≤ 4 }
    ensures { result ≡ 2 ^ channels }
{
    1usize << channels
}

// "at most sixteen corners of four coordinates each"
pub fn get_corners(centre: [f64; 4], side: f64, channels: usize) -> [[f64; 4]; 16]
    requires { channels ≤ 4 }
    ensures { result ≡ rows_of channels centre (half side) }
{
    let mut all = [[0.0f64; 4]; 16];
    let e = half_side(side);
    let n = corner_count(channels);
    for k in 0..n {
        all[k] = corner(centre, e, channels, k);
    }
    all
}

// The distance of the farthest corner: the root of the largest sum of squares, since rounding keeps the order of roots.
pub fn farthest_corner(q: [f64; 4], all: [[f64; 4]; 16], channels: usize) -> f64
    requires { channels ≤ 4 }
    ensures { result ≡ farthest (take channels q) (map (take channels) (take (2 ^ channels) all)) }
{
    let mut far = 0.0f64;
    let n = corner_count(channels);
    for row in &all[..n] {
        let sum = square_sum(q, *row, channels);
        if far < sum {
            far = sum;
        }
    }
    ieee754::root(far)
}

// The box against the frame q: t is the tolerance, and appx the extended one.
pub fn determine_intersection(
    b: Box,
    q: [f64; 4],
    channels: usize,
    t: f64,
    appx: f64,
) -> IntersectionType
    requires { (1 ≤ channels) × (channels ≤ 4) }
    ensures { result ≡ intersection channels t appx b.side (take channels b.centre) (take channels q) }
{
    let centre = b.centre;
    let side = b.side;
    let d = distance(q, centre, channels);
    let h = half_side(side * ieee754::root_of_small(channels));
    if d - h > t {
        return IntersectionType::Disjoint;
    }
    if d + h <= appx {
        return IntersectionType::FullyCovered;
    }
    let e = half_side(side);
    if d - e <= t {
        return IntersectionType::Intersecting;
    }
    // with a side above 0, no rounding brings the farthest corner nearer than the centre
    if appx <= d && 0.0 < e {
        return IntersectionType::Intersecting;
    }
    let all = get_corners(centre, side, channels);
    if farthest_corner(q, all, channels) < appx {
        IntersectionType::FullyCovered
    } else {
        IntersectionType::Intersecting
    }
}
