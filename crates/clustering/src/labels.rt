// The clusters, numbered, and the labels and kinds of frames (`label` of the source).
ghost use Rattle.std.specs.Prelude.{◌≡◌, ◌<◌, ◌≤◌, get_or, length, slice_get};
ghost use Rattle.lists.specs.Lists.{numbers, keep, how_many, nonzero};
ghost use Rattle.lists.specs.Words.{column};
ghost use Rattle.counting_tree.specs.Given.{geometry};
ghost use Rattle.cells_grid.specs.Cells.{cell_number};
ghost use Rattle.clustering.specs.Clusters.{place, clusters, label_by, kind_of};
ghost use Rattle.clustering.specs.FrameLabels.{label_word, kind_word};
ghost use Rattle.clustering.specs.Numbering.{Led, leads, number_by, cluster_word, borders_at};
ghost use Rattle.clustering.specs.Regions.{ClearAgain};

use crate::{ListedCells, NONE};
use lists::Word;

// What a frame is found to be: noise, or a border or a core frame of a cluster.
#[derive(Clone, Copy, PartialEq, Eq)]
pub enum FrameLabel {
    Noise,
    Border(Word),
    Core(Word),
}

impl FrameLabel {
    // The number of the frame's cluster, or NONE.
    pub fn label(self) -> Word
        ensures { result ≡ label_word self }
    {
        match self {
            FrameLabel::Noise => NONE,
            FrameLabel::Border(cluster) => cluster,
            FrameLabel::Core(cluster) => cluster,
        }
    }

    // The kind byte.
    pub fn kind(self) -> Word
        ensures { result ≡ kind_word self }
    {
        match self {
            FrameLabel::Noise => 0,
            FrameLabel::Border(_) => 1,
            FrameLabel::Core(_) => 2,
        }
    }
}

// Numbers the clusters in ascending order of their lowest cells, by the leaders, and writes the number of each core cell's. Returns how many there are.
// (The word on the tree of a cell is 0 where it is no core cell.)
pub fn number_clusters(trees: &[Word], leaders: &[Word], cluster_of: &mut [Word]) -> usize
    requires sizes { (length trees.now ≤ 65536) × (length leaders.now ≡ length trees.now) × (length cluster_of.old ≡ length trees.now) }
    requires led { Led (λ c. nonzero (get_or trees.now c 0)) (λ c. get_or leaders.now c 0) (length trees.now) }
    ensures count { result ≡ how_many (leads (λ c. nonzero (get_or trees.now c 0)) (λ c. get_or leaders.now c 0)) (numbers (length trees.now)) }
    ensures clusters { cluster_of.new ≡ column (number_by (λ c. nonzero (get_or trees.now c 0)) (λ c. get_or leaders.now c 0)) (length trees.now) }
{
    let mut m = 0;
    for c in 0..trees.len() {
        let lowest = leaders[c] as usize;
        if trees[c] == 0 {
            cluster_of[c] = 0;
        } else if lowest == c {
            cluster_of[c] = m as Word;
            m += 1;
        } else {
            cluster_of[c] = cluster_of[lowest];
        }
    }
    m
}

// The lowest listed cell in whose tree frame i has a non-zero count, if there is one.
fn border_cell(cells: &ListedCells, list: &mut [Word], i: usize) -> Option<usize>
    requires { (i < cells.now.core.grid.frames.n) × (cells.now.core.grid.k ≤ length list.old) }
    ensures cell { let g = geometry cells.now.core.grid.frames in result ≡ slice_get (keep (borders_at g (cell_number g i) i) (numbers cells.now.core.grid.k)) 0 }
    ensures list { ClearAgain list.old list.new }
{
    let core = &cells.core;
    let m = cells.sorted().list_cells(core.grid.cell_of(i), list);
    let mut lowest = None;
    for c in &list[..m] {
        let c = *c as usize;
        if lowest.is_none_or(|b| c < b) && core.reaches(i, c, core.root_first(c)) {
            lowest = Some(c);
        }
    }
    list[..m].fill(0);
    lowest
}

// The label and the kind of frame i, where there are m clusters, and the words hold that of each core cell. Without a cluster no frame borders on a cell.
pub fn label_frame(
    cells: &ListedCells,
    cluster_of: &[Word],
    m: usize,
    list: &mut [Word],
    i: usize,
) -> FrameLabel
    requires frame { (i < cells.now.core.grid.frames.n) × (cells.now.core.grid.k ≤ length list.old) }
    requires clusters { let g = geometry cells.now.core.grid.frames in (m ≡ length (clusters g)) × (cluster_of.now ≡ column (cluster_word g) cells.now.core.grid.k) }
    ensures label { let g = geometry cells.now.core.grid.frames in label_word result ≡ label_by g (λ c. place c (clusters g)) i }
    ensures kind { kind_word result ≡ kind_of (geometry cells.now.core.grid.frames) i }
    ensures list { ClearAgain list.old list.new }
{
    if cells.core.is_core(i) {
        return FrameLabel::Core(cluster_of[cells.core.grid.cell_of(i)]);
    }
    if m == 0 {
        return FrameLabel::Noise;
    }
    match border_cell(cells, list, i) {
        None => FrameLabel::Noise,
        Some(c) => FrameLabel::Border(cluster_of[c]),
    }
}

// Writes the label and the kind of each frame.
pub fn label_frames(
    cells: &ListedCells,
    cluster_of: &[Word],
    m: usize,
    labels: &mut [Word],
    kinds: &mut [Word],
    list: &mut [Word],
)
    requires sizes { let n = cells.now.core.grid.frames.n in (length labels.old ≡ n) × (length kinds.old ≡ n) × (cells.now.core.grid.k ≤ length list.old) }
    requires clusters { let g = geometry cells.now.core.grid.frames in (m ≡ length (clusters g)) × (cluster_of.now ≡ column (cluster_word g) cells.now.core.grid.k) }
    ensures labels { let f = cells.now.core.grid.frames in let g = geometry f in labels.new ≡ column (label_by g (λ c. place c (clusters g))) f.n }
    ensures kinds { let f = cells.now.core.grid.frames in kinds.new ≡ column (kind_of (geometry f)) f.n }
    ensures list { ClearAgain list.old list.new }
{
    for i in 0..cells.core.grid.frames.n {
        let found = label_frame(cells, cluster_of, m, list, i);
        labels[i] = found.label();
        kinds[i] = found.kind();
    }
}
