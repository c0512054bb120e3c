// The run for callers in C and other languages: slices as a pointer and a length, the answer as numbers.
#![tactic(auto)]

ghost use Rattle.std.specs.Prelude.{◌≡◌, Ok};
ghost use Rattle.hyperparams.specs.declared.ValidParams.{ValidParams};
ghost use Rattle.counting_tree.specs.Frames.{frames_of};
ghost use Rattle.counting_tree.specs.Geometry.{short};
ghost use Rattle.appx_dbscan.specs.Transform.{outcome_of, labels_left, kinds_left, work_left, checked_call};
ghost use Rattle.appx_dbscan.specs.Promise.{Promise};
ghost use Rattle.appx_dbscan.specs.Small.{params};
ghost use Rattle.appx_dbscan_c.specs.Told.{told_of, needed_of};

use appx_dbscan::Counts;
use hyperparams::{MAX_FRAMES, MAX_POWER, Params, Refusal};

// `refusal` is 0 where the frames are labelled, else the number of the refusal, 1 to 9, and the counts are 0.
#[repr(C)]
#[derive(Clone, Copy)]
pub struct AppxDbscanOutcome {
    pub refusal: u8,
    pub clusters: usize,
    pub core_frames: usize,
}

fn told(outcome: Result<Counts, Refusal>) -> AppxDbscanOutcome
    ensures { result ≡ told_of outcome }
{
    match outcome {
        Ok(counts) => AppxDbscanOutcome {
            refusal: 0,
            clusters: counts.clusters,
            core_frames: counts.core_frames,
        },
        Err(refusal) => AppxDbscanOutcome {
            refusal: refusal.into(),
            clusters: 0,
            core_frames: 0,
        },
    }
}

// Labels and kinds of the frames, or the number of a refusal, which changes nothing.
#[unsafe(no_mangle)]
pub extern "C" fn appx_dbscan_transform(
    points: &[i16],
    channels: usize,
    min_points: usize,
    tolerance: f64,
    slack: f64,
    labels: &mut [u16],
    kinds: &mut [u8],
    work: &mut [u16],
) -> AppxDbscanOutcome
    ensures outcome { let ps = points.now in
        result ≡ told_of (outcome_of (checked_call (params channels min_points tolerance slack) ps labels.old kinds.old work.old) ps) }
    ensures labels { let ps = points.now in let ls = labels.old in
        labels.new ≡ labels_left (checked_call (params channels min_points tolerance slack) ps ls kinds.old work.old) ps ls }
    ensures kinds { let ps = points.now in let ks = kinds.old in
        kinds.new ≡ kinds_left (checked_call (params channels min_points tolerance slack) ps labels.old ks work.old) ps ks }
    ensures work { let ps = points.now in let ws = work.old in
        work.new ≡ work_left (checked_call (params channels min_points tolerance slack) ps labels.old kinds.old ws) ps ws }
    ensures promise { let ps = points.now in
        (v : ValidParams) → checked_call (params channels min_points tolerance slack) ps labels.old kinds.old work.old ≡ Ok v
        → Promise short v (frames_of v.channels ps) labels.new kinds.new }
{
    let p = Params {
        channels,
        min_points,
        tolerance,
        slack,
    };
    told(appx_dbscan::transform(points, p, labels, kinds, work))
}

// How many work words a run on so many frames needs, its slack 1 / 2^s; 0 outside the domain.
#[unsafe(no_mangle)]
pub extern "C" fn appx_dbscan_work_words(frames: usize, s: usize) -> usize
    ensures { result ≡ needed_of frames s }
{
    if frames > MAX_FRAMES || s > MAX_POWER {
        return 0;
    }
    hyperparams::work_words(frames, s)
}
