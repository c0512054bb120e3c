// The cells of a run with their core frames and trees, as they are asked.
ghost use Rattle.std.specs.Prelude.{◌≡◌, IfSome, is_some, ltb, ◌+◌, ◌*◌, ◌<◌, get_or};
ghost use Rattle.counting_tree.specs.Given.{geometry};
ghost use Rattle.cells_grid.specs.Cells.{core, core_cell};
ghost use Rattle.cells_grid.specs.Arrangement.{cell_at};
ghost use Rattle.tree_structure.specs.Encode.{TreeAt};
ghost use Rattle.core_cells.specs.Forest.{tree_frames};
ghost use Rattle.core_cells.specs.HasTrees.{HasTrees, HasTrees_prop};
ghost use Rattle.core_cells.specs.RootBox.{root_box};

use crate::building::is_core_cell;
use cells_grid::CellsGrid;
use cells_grid::listing::TREES;
use counting_tree::Box;
use lists::Word;

// The cells of a run, which frames are core, and the trees.
#[derive(Clone, Copy)]
pub struct CoreCells<'a> {
    pub grid: CellsGrid<'a>,
    pub nodes: &'a [Word],
    pub ghost has_trees: { HasTrees (geometry grid.frames) grid.k grid.work.now nodes.now } by { HasTrees_prop (geometry grid.frames) grid.k grid.work.now nodes.now },
}

impl CoreCells<'_> {
    // Whether frame i is a core frame.
    pub fn is_core(&self, i: usize) -> bool
        requires { i < self.now.grid.frames.n }
        ensures { result ≡ core (geometry self.now.grid.frames) i }
    {
        cells_grid::is_core(self.grid.work, self.grid.frames.n, i)
    }

    // Whether cell c is a core cell.
    pub fn has_core(&self, c: usize) -> bool
        requires { c < self.now.grid.k }
        ensures { let g = geometry self.now.grid.frames in result ≡ core_cell g (cell_at g c) }
    {
        is_core_cell(self.grid.work, self.grid.frames.n, c)
    }

    // The root box of cell c, by its first frame.
    pub(crate) fn root_box(&self, c: usize) -> Box
        requires { c < self.now.grid.k }
        ensures { let f = self.now.grid.frames in result ≡ root_box f.v f.n f.points.now c }
    {
        let frames = &self.grid.frames;
        let first = counting_tree::points::frame_at(
            frames.points,
            frames.v.channels,
            self.grid.first_of(c),
        );
        let side = counting_tree::grid::base_side(frames.v.tolerance, frames.v.channels);
        counting_tree::boxes::box_of(first, side, frames.v.channels)
    }

    // The nodes from those of cell c's tree on; none where the cell has no tree.
    pub fn tree_of(&self, c: usize) -> Option<&[Word]>
        requires { c < self.now.grid.k }
        ensures some { let n = self.now.grid.frames.n in is_some result ≡ ltb 1 (get_or self.now.grid.work.now (5 * n + c) 0) }
        ensures tree { let f = self.now.grid.frames in let g = geometry f in IfSome result (λ t. TreeAt g.same f.n t.now 0 g.levels 0 (tree_frames g c)) }
    {
        let word = lists::word(self.grid.work, TREES * self.grid.frames.n + c);
        let first = word.checked_sub(2)?;
        Some(&self.nodes[4 * first..])
    }
}
