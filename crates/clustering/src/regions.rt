// The cells of a run as they stand sorted, of the regions of one lent slice.
ghost use Rattle.std.specs.Prelude.{◌≡◌};
ghost use Rattle.clustering.specs.Regions.{Listable};

use crate::ListedCells;
use cells_grid::CellsGrid;
use cells_grid::listing::BUCKETS;
use core_cells::CoreCells;
use counting_tree::Frames;
use lists::Word;

// The k cells that the words up to 6n, the five words a frame of the sorted cells, and the nodes hold.
pub(crate) fn listed_cells<'a>(
    frames: Frames<'a>,
    k: usize,
    work: &'a [Word],
    sorted: &'a [Word],
    nodes: &'a [Word],
) -> ListedCells<'a>
    requires { Listable frames.v frames.n frames.points.now k work.now sorted.now nodes.now }
    ensures { (result.core.grid.frames ≡ frames.entry) × (result.core.grid.k ≡ k) }
{
    let places = 4 * frames.n;
    ListedCells {
        core: CoreCells {
            grid: CellsGrid { frames, k, work },
            nodes,
        },
        ends: &sorted[..BUCKETS * k],
        places: &sorted[places..places + k],
    }
}
