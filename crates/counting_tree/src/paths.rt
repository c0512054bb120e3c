// The path of one frame: its boxes from below the root down, against another frame.
ghost use Rattle.std.specs.Prelude.{◌≡◌, ◌<◌};
ghost use Rattle.counting_tree.specs.Paths as Paths;
ghost use Rattle.counting_tree.specs.Given.{geometry};
ghost use Rattle.counting_tree.specs.declared.IntersectionType.TheVariants.{Intersecting};

use super::grid::{base_side, half_side};
use crate::{Frames, IntersectionType};

impl Frames<'_> {
    // Whether frame x, whose root box is Intersecting, reaches frame q by its own path: of its boxes below the root one is FullyCovered, or the last is Intersecting,
    // and none before it is Disjoint.
    pub fn reaches(&self, q: usize, x: usize) -> bool
        requires { (q < self.now.n) × (x < self.now.n) × ((geometry self.now).box q 0 x ≡ Intersecting) }
        ensures { let g = geometry self.now in result ≡ Paths.reaches (g.box q) g.levels 0 x }
    {
        let mut side = half_side(base_side(self.v.tolerance, self.v.channels));
        for _ in 0..self.v.s {
            match self.classify(q, side, x) {
                IntersectionType::Disjoint => {
                    return false;
                }
                IntersectionType::FullyCovered => {
                    return true;
                }
                IntersectionType::Intersecting => {
                    side = half_side(side);
                }
            }
        }
        match self.classify(q, side, x) {
            IntersectionType::Disjoint => false,
            IntersectionType::FullyCovered => true,
            IntersectionType::Intersecting => true,
        }
    }
}
