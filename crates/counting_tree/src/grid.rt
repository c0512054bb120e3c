// The sides of boxes, and the index and the centre of the box in which a coordinate lies.
ghost use Rattle.std.specs.Prelude.{◌≡◌, ◌&&◌, ◌≤◌};
ghost use Rattle.std.specs.Float.Ieee.{neg, lt, le};
ghost use Rattle.counting_tree.specs.Grid.{side_at, half, index, centre};
ghost use Rattle.counting_tree.specs.Radius.{Side};

// "Base side = t / root(channels)"
pub fn base_side(t: f64, channels: usize) -> f64
    requires { (1 ≤ channels) × (channels ≤ 4) }
    ensures { result ≡ side_at channels t 0 }
{
    t / ieee754::root_of_small(channels)
}

// "each level halves the side"
pub fn half_side(side: f64) -> f64
    ensures { result ≡ half side }
{
    side / 2.0
}

// Whether c lies in the box around 0: its lower edge counts, its upper edge does not.
fn around_zero(c: f64, half: f64) -> bool
    ensures { result ≡ (le (neg half) c && lt c half) }
{
    -half <= c && c < half
}

// The index of a coordinate (get_cell_index of the source, one channel of it).
pub fn cell_index(side: f64, c: i16) -> i64
    requires { Side side }
    ensures { result ≡ index side c }
{
    let x = c as f64;
    let half = half_side(side);
    if around_zero(x, half) {
        return 0;
    }
    if x > 0.0 {
        return ieee754::ceiling((x - half) / side);
    }
    -1 + ieee754::ceiling((x + half) / side)
}

// "Centre = index × side": the centre of the box in which a coordinate lies.
pub fn cell_center(side: f64, c: i16) -> f64
    requires { Side side }
    ensures { result ≡ centre side (index side c) }
{
    (cell_index(side, c) as f64) * side
}
