// Sets of linked core cells, and the labels of frames, in words of one lent slice.
// `n` is the number of frames, `k` the number of cells.
#![tactic(auto)]

ghost use Rattle.std.specs.Prelude.{◌≡◌, ◌*◌, ◌≤◌, length};
ghost use Rattle.lists.specs.Words.{over, column, Clear};
ghost use Rattle.counting_tree.specs.Given.{geometry};
ghost use Rattle.core_cells.specs.Forest.{Grown};
ghost use Rattle.clustering.specs.Clusters.{place, clusters, label_by, kind_of};
ghost use Rattle.clustering.specs.Uniting.{lowest_at};
ghost use Rattle.clustering.specs.Numbering.{cluster_word};
ghost use Rattle.clustering.specs.Regions.{ClearAgain, Listable};

use cells_grid::listing::ENDS;
use counting_tree::Frames;
use lists::Word;
use regions::listed_cells;

mod cells;
pub mod close;
pub mod labels;
pub mod linking;
mod links;
pub mod listed;
pub mod marks;
mod regions;
mod sets;
pub mod trees;
pub mod uniting;

pub use cells::ListedCells;

// The regions, of one word a frame. From 6n on the leader of each cell.
pub const LEADERS: usize = 6;

// From 7n on the cluster of each core cell.
pub const CLUSTERS: usize = 7;

// From 8n on the label of each frame; while cells are united, the run of each sorted cell.
pub const LABELS: usize = 8;

// From 9n on the kind of each frame; while cells are united, the mark of each cell.
pub const KINDS: usize = 9;

// The label of a frame that has none.
pub const NONE: Word = 65535;

// What `label` does once the cells are sorted, on slices of the words: four words a frame for what it writes, and room for a list.
fn label_words<'a>(
    frames: Frames<'a>,
    k: usize,
    work: &'a [Word],
    sorted: &'a [Word],
    nodes: &'a [Word],
    words: &mut [Word],
    list: &mut [Word],
) -> usize
    requires cells { Listable frames.v frames.n frames.points.now k work.now sorted.now nodes.now }
    requires sizes { (length words.old ≡ 4 * frames.n) × (length list.old ≡ frames.n) }
    ensures value { result ≡ length (clusters (geometry frames.entry)) }
    ensures words { let f = frames.entry in let g = geometry f in words.new ≡ over (over (over (over words.old
        0 (column (lowest_at g (f.n * f.n)) k))
        f.n (column (cluster_word g) k))
        (2 * f.n) (column (label_by g (λ c. place c (clusters g))) f.n))
        (3 * f.n) (column (kind_of g) f.n) }
    ensures list { ClearAgain list.old list.new }
{
    let n = frames.n;
    let cells = listed_cells(frames, k, work, sorted, nodes);
    let (leaders, rest) = words.split_at_mut(n);
    let (cluster_of, rest) = rest.split_at_mut(n);
    let (labels, kinds) = rest.split_at_mut(n);
    let leaders = &mut leaders[..k];
    let cluster_of = &mut cluster_of[..k];
    listed::unite_listed_cells(&cells, leaders, &mut kinds[..k], &mut labels[..k], list);
    let m = labels::number_clusters(cells.trees(), leaders, cluster_of);
    labels::label_frames(&cells, cluster_of, m, labels, kinds, list);
    m
}

// Writes the lowest cell of each cell's set, the cluster of each core cell, and the label and the kind of each frame.
// Returns the number of clusters.
pub fn label(frames: &Frames, k: usize, work: &mut [Word]) -> usize
    requires { let f = frames.now in Grown (geometry f) k work.old × (16 * f.n ≤ length work.old) × Clear work.old (10 * f.n) (6 * f.n) }
    ensures value { result ≡ length (clusters (geometry frames.now)) }
    ensures work_after { let f = frames.now in let g = geometry f in work.new ≡ over (over (over (over work.old
        (6 * f.n) (column (lowest_at g (f.n * f.n)) k))
        (7 * f.n) (column (cluster_word g) k))
        (8 * f.n) (column (label_by g (λ c. place c (clusters g))) f.n))
        (9 * f.n) (column (kind_of g) f.n) }
{
    let n = frames.n;
    cells_grid::listing::sort_cells(frames, k, work);
    let (cells, rest) = work.split_at_mut(LEADERS * n);
    let (words, rest) = rest.split_at_mut(4 * n);
    let (sorted, rest) = rest.split_at_mut(5 * n);
    let (list, nodes) = rest.split_at_mut(n);
    let m = label_words(*frames, k, cells, sorted, nodes, words, list);
    lists::clear_words(work, ENDS * n, 5 * n);
    m
}
