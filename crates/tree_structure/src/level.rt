// A level of the boxes of a tree.
ghost use Rattle.std.specs.Prelude.{◌≡◌, ◌+◌, ◌-◌, ◌≤◌, ◌<◌};
ghost use Rattle.hyperparams.specs.Params.{levels};
ghost use Rattle.counting_tree.specs.Grid.{side_at};

use counting_tree::Frames;

// The level `level` of the frames, whose boxes have the side `side`, with `left` levels below it.
#[derive(Clone, Copy)]
pub struct Level<'a> {
    pub frames: &'a Frames<'a>,
    pub level: usize,
    pub left: usize,
    pub side: f64,
    pub ghost bound: { level + left ≤ levels frames.now.v.s },
    pub ghost side_is: { side ≡ side_at frames.now.v.channels frames.now.v.tolerance level },
}

impl<'a> Level<'a> {
    // The level of the root.
    pub fn root(frames: &'a Frames<'a>) -> Level<'a>
        ensures { (result.frames.now ≡ frames.now) × (result.level ≡ 0) × (result.left ≡ levels frames.now.v.s) }
    {
        let side = counting_tree::grid::base_side(frames.v.tolerance, frames.v.channels);
        Level {
            frames,
            level: 0,
            left: 1 + frames.v.s,
            side,
        }
    }

    // The next level.
    pub fn below(&self) -> Level<'a>
        requires { 0 < self.now.left }
        ensures { (result.frames.now ≡ self.now.frames.now) × (result.level ≡ self.now.level + 1) × (result.left ≡ self.now.left - 1) }
    {
        let side = counting_tree::grid::half_side(self.side);
        Level {
            frames: self.frames,
            level: self.level + 1,
            left: self.left - 1,
            side,
        }
    }
}
