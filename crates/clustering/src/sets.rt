// The sets of the cells, by their leaders (`partitions`).
ghost use Rattle.std.specs.Prelude.{◌≡◌, not, ◌<◌, length};
ghost use Rattle.lists.specs.Words.{column};
ghost use Rattle.partitions.specs.Leaders.{Falling, root};
ghost use Rattle.clustering.specs.UniteAll.{by_own_leaders};

use lists::Word;

// Whether the cells c and d are in two sets. (Two that have one leader are in one set: this is asked first.)
pub fn in_two_sets(leaders: &mut [Word], c: usize, d: usize) -> bool
    requires { Falling leaders.old × (c < length leaders.old) × (d < length leaders.old) }
    ensures answer { result ≡ not (by_own_leaders.same leaders.old c d) }
    ensures leaders { leaders.new ≡ by_own_leaders.asked leaders.old c d }
{
    leaders[c] != leaders[d] && !partitions::same_set(leaders, c, d)
}

// Gives each cell the lowest cell of its set for its leader.
pub fn flatten(leaders: &mut [Word])
    requires { Falling leaders.old }
    ensures { leaders.new ≡ column (root leaders.old) (length leaders.old) }
{
    for c in 0..leaders.len() {
        leaders[c] = leaders[leaders[c] as usize];
    }
}
