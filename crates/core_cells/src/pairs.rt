// What the core frames of two cells tell of each other.
ghost use Rattle.std.specs.Prelude.{◌≡◌, true, false, Some, ℕ, ◌<◌};
ghost use Rattle.lists.specs.Lists.{In, nonzero};
ghost use Rattle.counting_tree.specs.Given.{geometry};
ghost use Rattle.cells_grid.specs.Cells.{count};
ghost use Rattle.cells_grid.specs.Arrangement.{cell_at};
ghost use Rattle.core_cells.specs.Forest.{tree_frames};
ghost use Rattle.core_cells.specs.Settling.{settled_by_cells, Apart};

use crate::CoreCells;

impl CoreCells<'_> {
    // What the core frames of the cells c and d tell by whole numbers, without trees: that one of c has a count in the tree of d,
    // or that none of the one has a count in the tree of the other.
    pub fn settled_by_cells(&self, c: usize, d: usize) -> Option<bool>
        requires { (c < self.now.grid.k) × (d < self.now.grid.k) }
        ensures value { let f = self.now.grid.frames in result ≡ settled_by_cells f.v f.n f.points.now c d }
        ensures touches { result ≡ Some true → (let g = geometry self.now.grid.frames in (q : ℕ) × In q (tree_frames g c) × (nonzero (count g q (cell_at g d)) ≡ true)) }
        ensures apart { let f = self.now.grid.frames in result ≡ Some false → Apart f.v f.n f.points.now c d }
    {
        let mut told = Some(false);
        for i in self.grid.frames_of(c) {
            let i = *i as usize;
            if !self.is_core(i) {
                continue;
            }
            match self.settled_by_frames(i, d) {
                Some(true) => return Some(true),
                Some(false) => {}
                None => told = None,
            }
        }
        told
    }
}
