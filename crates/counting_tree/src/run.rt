// The frames of a run: lent points under settings that passed the table.
ghost use Rattle.std.specs.Prelude.{◌≡◌, ◌/◌, length};
ghost use Rattle.counting_tree.specs.Ready.{Ready, Ready_prop};
ghost use Rattle.counting_tree.specs.Domain.{Counts};

use hyperparams::ValidParams;

// The first `n` frames of the points, under the settings `v`.
#[derive(Clone, Copy)]
pub struct Frames<'a> {
    pub points: &'a [i16],
    pub v: ValidParams,
    pub n: usize,
    pub ghost ready: { Ready points.now v n } by { Ready_prop points.now v n },
    pub ghost counts: { Counts points.now },
}

// Reads every count, and says how many there are: each is then known to be a signed 16-bit number.
pub fn read_counts(points: &[i16]) -> usize
    ensures { (result ≡ length points.now) × Counts points.now }
{
    for count in points {
        let read = *count;
    }
    points.len()
}

impl<'a> Frames<'a> {
    // All frames of the points.
    pub fn new(points: &'a [i16], v: ValidParams) -> Frames<'a>
        requires { Ready points.now v (length points.now / v.channels) }
        ensures points { result.points.now ≡ points.now }
        ensures settings { result.v ≡ v }
        ensures count { result.n ≡ length points.now / v.channels }
    {
        let n = read_counts(points) / v.channels;
        Frames { points, v, n }
    }
}
