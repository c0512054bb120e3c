// The lowest cell of each cell's set, as its leader and as its mark, and the runs of the marks of the sorted cells.
ghost use Rattle.std.specs.Prelude.{◌≡◌, map, ◌≤◌, get_or, length};
ghost use Rattle.lists.specs.Lists.{Below};
ghost use Rattle.lists.specs.Words.{column};
ghost use Rattle.partitions.specs.Leaders.{Falling, root};
ghost use Rattle.clustering.specs.Runs.{runs_of};

use crate::sets;
use lists::Word;

// Writes for each of the sorted cells how many of those right after it have its mark.
fn write_runs(cells: &[Word], marks: &[Word], runs: &mut [Word])
    requires { Below (length marks.now) cells.now × (length runs.old ≡ length cells.now) × (length cells.now ≤ 65536) }
    ensures { runs.new ≡ runs_of (map (λ c. get_or marks.now c 0) cells.now) }
{
    let mut mark = None;
    let mut run = 0;
    for p in (0..cells.len()).rev() {
        let own = marks[cells[p] as usize];
        run = if mark == Some(own) { run + 1 } else { 0 };
        mark = Some(own);
        runs[p] = run;
    }
}

// Gives each cell the lowest cell of its set for its leader, and for its mark, and writes the runs of the marks of the sorted cells.
pub fn mark_cells(cells: &[Word], leaders: &mut [Word], marks: &mut [Word], runs: &mut [Word])
    requires { Falling leaders.old × Below (length leaders.old) cells.now × (length cells.now ≤ 65536)
        × (length marks.old ≡ length leaders.old) × (length runs.old ≡ length cells.now) }
    ensures leaders { leaders.new ≡ column (root leaders.old) (length leaders.old) }
    ensures marks { marks.new ≡ column (root leaders.old) (length leaders.old) }
    ensures runs { runs.new ≡ runs_of (map (root leaders.old) cells.now) }
{
    sets::flatten(leaders);
    lists::copy(marks, leaders);
    write_runs(cells, marks, runs);
}
