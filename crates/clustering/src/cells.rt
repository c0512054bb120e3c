// The cells of a run with their trees, and the core cells sorted by blocks: so each finds those that it lists.
ghost use Rattle.std.specs.Prelude.{◌≡◌, ℕ, ◌<◌, get_or, length};
ghost use Rattle.lists.specs.Lists.{nonzero};
ghost use Rattle.counting_tree.specs.Given.{geometry};
ghost use Rattle.cells_grid.specs.Listing.{cell_ends, cell_places, core_at};

use cells_grid::SortedCells;
use cells_grid::listing::TREES;
use core_cells::CoreCells;
use lists::Word;

// From `ends` on where the cells of each bucket end, and the cells by bucket.
#[derive(Clone, Copy)]
pub struct ListedCells<'a> {
    pub core: CoreCells<'a>,
    pub ends: &'a [Word],
    pub places: &'a [Word],
    pub ghost ended: { ends.now ≡ cell_ends core.grid.frames.v core.grid.frames.n core.grid.frames.points.now },
    pub ghost placed: { places.now ≡ cell_places core.grid.frames.v core.grid.frames.n core.grid.frames.points.now },
}

impl<'a> ListedCells<'a> {
    // The cells as they are sorted.
    pub fn sorted(&self) -> SortedCells<'a>
        ensures { (result.grid ≡ self.now.core.grid) × (result.places.now ≡ self.now.places.now) }
    {
        SortedCells {
            grid: self.core.grid,
            ends: self.ends,
            places: self.places,
        }
    }

    // The word on the tree of each cell: 0 where it is no core cell.
    pub(crate) fn trees(&self) -> &'a [Word]
        ensures length { length result.now ≡ self.now.core.grid.k }
        ensures core { (c : ℕ) → c < self.now.core.grid.k → nonzero (get_or result.now c 0) ≡ core_at (geometry self.now.core.grid.frames) c }
    {
        let from = TREES * self.core.grid.frames.n;
        &self.core.grid.work[from..from + self.core.grid.k]
    }
}
