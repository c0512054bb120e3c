// The cells of a grid, sorted by the buckets of the blocks of their first frames, the core cells before the others.
ghost use Rattle.std.specs.Prelude.{◌≡◌};
ghost use Rattle.cells_grid.specs.Listing.{cell_ends, cell_places, sorted_core};

use crate::CellsGrid;
use lists::Word;

// Where the cells of each bucket end, and the cells by bucket.
#[derive(Clone, Copy)]
pub struct SortedCells<'a> {
    pub grid: CellsGrid<'a>,
    pub ends: &'a [Word],
    pub places: &'a [Word],
    pub ghost ended: { ends.now ≡ cell_ends grid.frames.v grid.frames.n grid.frames.points.now },
    pub ghost placed: { places.now ≡ cell_places grid.frames.v grid.frames.n grid.frames.points.now },
}

impl SortedCells<'_> {
    // The core cells among them.
    pub fn core_cells(&self) -> &[Word]
        ensures { let f = self.now.grid.frames in result.now ≡ sorted_core f.v f.n f.points.now }
    {
        &self.places[..lists::sorting::begins(self.ends, 0, self.ends.len().saturating_sub(1))]
    }
}
