// The clustering of frames: which are ordinary, and which are noise.
#![tactic(auto)]

ghost use Rattle.std.specs.Prelude.{◌≡◌, ℕ, ◌+◌, ◌*◌, ◌≤◌, eqb, length, get_or, replicate, Ok};
ghost use Rattle.lists.specs.Lists.{numbers, how_many, Below};
ghost use Rattle.lists.specs.Words.{over, part, column, Clear};
ghost use Rattle.hyperparams.specs.Params.{work_words};
ghost use Rattle.hyperparams.specs.declared.ValidParams.{ValidParams};
ghost use Rattle.counting_tree.specs.Frames.{frames_of};
ghost use Rattle.counting_tree.specs.Geometry.{short};
ghost use Rattle.counting_tree.specs.Given.{geometry};
ghost use Rattle.cells_grid.specs.Arrangement.{Cored};
ghost use Rattle.core_cells.specs.Forest.{tree_word, forest_to};
ghost use Rattle.clustering.specs.Clusters.{clusters};
ghost use Rattle.appx_dbscan.specs.Transform.{transform_of, outcome_of, labels_left, kinds_left, work_left, checked_call};
ghost use Rattle.appx_dbscan.specs.Promise.{Promise};
ghost use Rattle.appx_dbscan.specs.Filled.{filled};

use clustering::{KINDS, LABELS};
use counting_tree::Frames;
use hyperparams::{Params, Refusal};
use lists::Word;

// What the phases need cleared, from 10n on: six words a frame, which each leaves so, and for the first two of them eight more, where the nodes stand later.
const SCRATCH: usize = 10;

const SCRATCH_WORDS: usize = 14;

// The answer of a run: the number of clusters and of core frames.
#[derive(Clone, Copy, Debug, PartialEq, Eq)]
pub struct Counts {
    pub clusters: usize,
    pub core_frames: usize,
}

// Writes which cells are core cells, and the trees that are asked. (Which cells have one is free: no label depends on it. So are the words
// from 6n on and those from 8n up to 10n, which `label` writes.)
fn grow_trees(frames: &Frames, k: usize, work: &mut [Word])
    requires { let f = frames.now in Cored (geometry f) k work.old × (work_words f.n f.v.s ≤ length work.old) × Clear work.old (10 * f.n) (6 * f.n) }
    ensures { let f = frames.now in (few : ℕ) × (let g = geometry f in work.new ≡ over (over (over (over work.old
        (5 * f.n) (column (tree_word g few) k))
        (16 * f.n) (forest_to g few k))
        (6 * f.n) (part work.new (6 * f.n) k))
        (8 * f.n) (part work.new (8 * f.n) (2 * f.n))) }
{
    let n = frames.n;
    let limit = core_cells::path_limit(frames.v.s, n, k);
    core_cells::build_trees(frames, k, work, limit);
    if clustering::trees::wanted(frames, k, work) {
        core_cells::build_trees(frames, k, work, core_cells::PATHS);
    }
}

// Cells, core frames, trees and clusters, then the label and the kind of each frame, in the work words. Returns the number of clusters.
fn fill_work(frames: &Frames, work: &mut [Word]) -> usize
    requires { let f = frames.now in (work_words f.n f.v.s ≤ length work.old) × Clear work.old (10 * f.n) (14 * f.n) }
    ensures value { result ≡ length (clusters (geometry frames.now)) }
    ensures work_after { (few : ℕ) × (work.new ≡ filled (geometry frames.now) frames.now.n few work.old) }
{
    let k = cells_grid::populate(frames, work);
    cells_grid::label_points(frames, k, work);
    grow_trees(frames, k, work);
    clustering::label(frames, k, work)
}

// Copies the labels out of the work words.
fn copy_labels(work: &[Word], n: usize, labels: &mut [u16])
    requires { (9 * n ≤ length work.now) × (n ≤ length labels.old) }
    ensures { labels.new ≡ over labels.old 0 (part work.now (8 * n) n) }
{
    lists::copy(&mut labels[..n], &work[LABELS * n..(LABELS + 1) * n]);
}

// Copies the kinds out of the work words.
fn copy_kinds(work: &[Word], n: usize, kinds: &mut [u8])
    requires { (10 * n ≤ length work.now) × (n ≤ length kinds.old) × Below 3 (part work.now (9 * n) n) }
    ensures { kinds.new ≡ over kinds.old 0 (part work.now (9 * n) n) }
{
    for (i, word) in work[KINDS * n..(KINDS + 1) * n].iter().enumerate() {
        kinds[i] = *word as u8;
    }
}

// The number of core frames, by the work words.
fn count_cores(work: &[Word], n: usize) -> usize
    requires { 5 * n ≤ length work.now }
    ensures { result ≡ how_many (λ i. eqb (get_or work.now (4 * n + i) 0) 1) (numbers n) }
{
    (0..n).filter(|i| cells_grid::is_core(work, n, *i)).count()
}

// A run on n frames, with settings that passed the table.
fn run(frames: &Frames, labels: &mut [u16], kinds: &mut [u8], work: &mut [Word]) -> Counts
    requires { let f = frames.now in (f.n ≤ length labels.old) × (f.n ≤ length kinds.old) × (work_words f.n f.v.s ≤ length work.old) }
    ensures clusters { result.clusters ≡ (transform_of (geometry frames.now)).cluster_count }
    ensures cores { result.core_frames ≡ (transform_of (geometry frames.now)).core_count }
    ensures labels { labels.new ≡ over labels.old 0 (transform_of (geometry frames.now)).labels }
    ensures kinds { kinds.new ≡ over kinds.old 0 (transform_of (geometry frames.now)).kinds }
    ensures work { work.new ≡ over work.old 0 (replicate (work_words frames.now.n frames.now.v.s) 0) }
{
    let n = frames.n;
    lists::clear_words(work, SCRATCH * n, SCRATCH_WORDS * n);
    let clusters = fill_work(frames, work);
    copy_labels(work, n, labels);
    copy_kinds(work, n, kinds);
    let core_frames = count_cores(work, n);
    let words = hyperparams::work_words(n, frames.v.s);
    lists::clear_words(work, 0, words);
    Counts {
        clusters,
        core_frames,
    }
}

// Labels and kinds of the frames, or a refusal, which changes nothing. The needed work words are 0 after a run.
pub fn transform(
    points: &[i16],
    p: Params,
    labels: &mut [u16],
    kinds: &mut [u8],
    work: &mut [Word],
) -> Result<Counts, Refusal>
    ensures outcome { result ≡ outcome_of (checked_call p points.now labels.old kinds.old work.old) points.now }
    ensures labels { labels.new ≡ labels_left
        (checked_call p points.now labels.old kinds.old work.old) points.now labels.old }
    ensures kinds { kinds.new ≡ kinds_left
        (checked_call p points.now labels.old kinds.old work.old) points.now kinds.old }
    ensures work { work.new ≡ work_left
        (checked_call p points.now labels.old kinds.old work.old) points.now work.old }
    ensures promise { (v : ValidParams) → checked_call p points.now labels.old kinds.old work.old ≡ Ok v
        → Promise short v (frames_of v.channels points.now) labels.new kinds.new }
{
    let v = p.check(points.len(), labels.len(), kinds.len(), work.len())?;
    let frames = Frames::new(points, v);
    Ok(run(&frames, labels, kinds, work))
}
