// Whether a frame has a non-zero count in a cell's tree, which whole numbers mostly tell without the tree.
ghost use Rattle.std.specs.Prelude.{◌≡◌, Option, Some, IfSome, unwrap_or, ◌&&◌, ◌*◌, ◌<◌, ◌≤◌};
ghost use Rattle.lists.specs.Lists.{nonzero};
ghost use Rattle.hyperparams.specs.Params.{max_power};
ghost use Rattle.counting_tree.specs.Geometry.{N};
ghost use Rattle.counting_tree.specs.Paths as Paths;
ghost use Rattle.counting_tree.specs.Given.{geometry, frame_list};
ghost use Rattle.counting_tree.specs.declared.IntersectionType.TheVariants.{Intersecting};
ghost use Rattle.cells_grid.specs.Cells.{core, count};
ghost use Rattle.cells_grid.specs.Arrangement.{cell_at};
ghost use Rattle.core_cells.specs.Forest.{tree_frames};
ghost use Rattle.core_cells.specs.Nearest.{beyond, least_until, out_of_reach};
ghost use Rattle.core_cells.specs.RootBox.{root_box, root_first};
ghost use Rattle.core_cells.specs.Settling.{settled_by_frames, settled_by_root, told_by, Tells};

use crate::CoreCells;
use counting_tree::{Box, IntersectionType};

// In a cell with at most so many frames these are asked before its root box, unless s is 0.
const FEW: usize = 2;

// More than any sum of squared differences.
const BEYOND: u64 = 1 << 35;

// "The far reach is N × (4 to the power s) < (t × ((2 to the power s) + 1)) squared + (4 to the power s).": whether N is not below it.
pub(crate) fn out_of_reach(t: u64, s: usize, square: u64) -> bool
    requires { (t ≤ 65535) × (s ≤ max_power) × (square ≤ beyond) }
    ensures { result ≡ out_of_reach t s square }
{
    let two = 1u64 << s;
    let four = two * two;
    let reach = t * (two + 1);
    reach * reach + four <= square * four
}

impl CoreCells<'_> {
    // The first sum of squared differences below t × t of frame q and a core frame of cell c; if there is none, the least of them, if any.
    fn least_square(&self, q: usize, c: usize) -> Option<u64>
        requires { (q < self.now.grid.frames.n) × (c < self.now.grid.k) }
        ensures value { let f = self.now.grid.frames in unwrap_or result beyond ≡ least_until (f.v.t * f.v.t) (N f.v (frame_list f) q) beyond (tree_frames (geometry f) c) }
        ensures bound { IfSome result (λ x. x ≤ beyond) }
    {
        // a copy, which the loop keeps in registers
        let frames = self.grid.frames;
        let enough = frames.v.t * frames.v.t;
        let mut least = BEYOND;
        // one way out of the loop, and most frames asked only whether they are nearer
        for x in self.grid.frames_of(c) {
            let x = *x as usize;
            let apart = if self.is_core(x) {
                frames.square_apart(q, x)
            } else {
                BEYOND
            };
            if apart < least {
                least = apart;
                if apart < enough {
                    break;
                }
            }
        }
        (least < BEYOND).then_some(least)
    }

    // What the core frames of cell c tell of whether frame q has a count in its tree: it has where one is nearer than the tolerance,
    // and has none where all are out of reach.
    pub fn settled_by_frames(&self, q: usize, c: usize) -> Option<bool>
        requires { (q < self.now.grid.frames.n) × (c < self.now.grid.k) }
        ensures value { let f = self.now.grid.frames in result ≡ settled_by_frames f.v f.n f.points.now q c }
        ensures tells { let f = self.now.grid.frames in Tells f.v f.n f.points.now q c result }
    {
        let Some(least) = self.least_square(q, c) else {
            return Some(false);
        };
        let v = self.grid.frames.v;
        if least < v.t * v.t {
            return Some(true);
        }
        out_of_reach(v.t, v.s, least).then_some(false)
    }

    // The root box of cell c, to be worked out once for all frames that are asked of the cell; none where the cell's own frames are asked first:
    // where they are few and s is above 0. With s 0 the box settles nearly everything.
    pub fn root_first(&self, c: usize) -> Option<Box>
        requires { c < self.now.grid.k }
        ensures value { let f = self.now.grid.frames in result ≡ root_first f.v f.n f.points.now c }
        ensures root { let f = self.now.grid.frames in IfSome result (λ b. b ≡ root_box f.v f.n f.points.now c) }
    {
        if self.grid.frames.v.s > 0 && self.grid.frames_of(c).len() <= FEW {
            return None;
        }
        Some(self.root_box(c))
    }

    // What the root box `root` of cell c tells of whether frame q has a count in the cell's tree: all core frames of the cell share that box.
    fn settled_by_root(&self, q: usize, c: usize, root: Box) -> Option<bool>
        requires { let f = self.now.grid.frames in (q < f.n) × (c < self.now.grid.k) × (root ≡ root_box f.v f.n f.points.now c) }
        ensures value { let f = self.now.grid.frames in result ≡ settled_by_root f.v f.n f.points.now q c }
        ensures tells { let f = self.now.grid.frames in Tells f.v f.n f.points.now q c result }
    {
        if !self.has_core(c) {
            return Some(false);
        }
        self.grid.frames.settled(q, root)
    }

    // What the root box of cell c tells of that, or, where none is handed on, the cell's frames.
    fn told_by(&self, q: usize, c: usize, root: Option<Box>) -> Option<bool>
        requires { let f = self.now.grid.frames in (q < f.n) × (c < self.now.grid.k) × IfSome root (λ b. b ≡ root_box f.v f.n f.points.now c) }
        ensures value { let f = self.now.grid.frames in result ≡ told_by f.v f.n f.points.now q c root }
        ensures tells { let f = self.now.grid.frames in Tells f.v f.n f.points.now q c result }
    {
        match root {
            Some(root) => self.settled_by_root(q, c, root),
            None => self.settled_by_frames(q, c),
        }
    }

    // Whether frame x, whose root box is Intersecting, is core and reaches frame q by its own path: none that is out of reach does.
    fn core_reaches(&self, q: usize, x: usize) -> bool
        requires { let f = self.now.grid.frames in (q < f.n) × (x < f.n) × ((geometry f).box q 0 x ≡ Intersecting) }
        ensures { let g = geometry self.now.grid.frames in result ≡ (core g x && Paths.reaches (g.box q) g.levels 0 x) }
    {
        let frames = &self.grid.frames;
        self.is_core(x)
            && !out_of_reach(frames.v.t, frames.v.s, frames.square_apart(q, x))
            && frames.reaches(q, x)
    }

    // Whether a core frame of cell c reaches frame q by its own path; the root box of all of them is Intersecting.
    fn some_reaches(&self, q: usize, c: usize) -> bool
        requires { let g = geometry self.now.grid.frames in (q < self.now.grid.frames.n) × (c < self.now.grid.k) × (g.box q 0 (cell_at g c) ≡ Intersecting) }
        ensures { let g = geometry self.now.grid.frames in result ≡ nonzero (count g q (cell_at g c)) }
    {
        self.grid
            .frames_of(c)
            .iter()
            .any(|x| self.core_reaches(q, *x as usize))
    }

    // Whether frame q has a non-zero count in the tree of cell c, by the paths of its core frames. They share the root box, which is tested once.
    fn reaches_by_paths(&self, q: usize, c: usize) -> bool
        requires { (q < self.now.grid.frames.n) × (c < self.now.grid.k) }
        ensures { let g = geometry self.now.grid.frames in result ≡ nonzero (count g q (cell_at g c)) }
    {
        if !self.has_core(c) {
            return false;
        }
        let side = counting_tree::grid::base_side(
            self.grid.frames.v.tolerance,
            self.grid.frames.v.channels,
        );
        match self.grid.frames.classify(q, side, self.grid.first_of(c)) {
            IntersectionType::Disjoint => false,
            IntersectionType::FullyCovered => true,
            IntersectionType::Intersecting => self.some_reaches(q, c),
        }
    }

    // Whether frame q has a non-zero count in the tree of cell c, where `told_by` with this `root` leaves it open: by the tree, where it is built;
    // else by what `told_by` did not ask, the frames of the cell or its root box, and then by paths.
    // (With a small s a tree has few boxes, and tells sooner than more than 64 frames do; with a large one the spans tell most cells apart.)
    fn reaches_second(&self, q: usize, c: usize, root: Option<Box>) -> bool
        requires { (q < self.now.grid.frames.n) × (c < self.now.grid.k) }
        ensures { let g = geometry self.now.grid.frames in result ≡ nonzero (count g q (cell_at g c)) }
    {
        let frames = &self.grid.frames;
        if let Some(tree) = self.tree_of(c) {
            return tree_structure::approximate_range_counting(frames, tree, q).is_some();
        }
        let told = match root {
            Some(_) => self.settled_by_frames(q, c),
            None => self.settled_by_root(q, c, self.root_box(c)),
        };
        match told {
            Some(told) => told,
            None => self.reaches_by_paths(q, c),
        }
    }

    // Whether frame q has a non-zero count in the tree of cell c: by its root box `root` first, or, without one, by its frames.
    pub fn reaches(&self, q: usize, c: usize, root: Option<Box>) -> bool
        requires { let f = self.now.grid.frames in (q < f.n) × (c < self.now.grid.k) × IfSome root (λ b. b ≡ root_box f.v f.n f.points.now c) }
        ensures { let g = geometry self.now.grid.frames in result ≡ nonzero (count g q (cell_at g c)) }
    {
        match self.told_by(q, c, root) {
            Some(told) => told,
            None => self.reaches_second(q, c, root),
        }
    }
}
