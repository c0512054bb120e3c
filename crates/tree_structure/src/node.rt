// A node of a tree in four words: its number of frames, the number of nodes from it down, its first frame, 0.
ghost use Rattle.std.specs.Prelude.{◌≡◌, ◌∷◌, [], ◌≤◌, length, get_or};
ghost use Rattle.lists.specs.Words.{over};
ghost use Rattle.hyperparams.specs.Params.{max_frames};
ghost use Rattle.tree_structure.specs.Work.{max_nodes};

use lists::Word;

#[derive(Clone, Copy)]
pub struct Node {
    pub count: usize,
    pub size: usize,
    pub first: usize,
}

impl Node {
    // The node whose words come first.
    pub fn read(words: &[Word]) -> Node
        requires { 4 ≤ length words.now }
        ensures count { result.count ≡ get_or words.now 0 0 }
        ensures size { result.size ≡ get_or words.now 1 0 }
        ensures first { result.first ≡ get_or words.now 2 0 }
    {
        Node {
            count: usize::from(words[0]),
            size: usize::from(words[1]),
            first: usize::from(words[2]),
        }
    }

    // Writes the node's words over the first four.
    pub fn write(self, words: &mut [Word])
        requires { (4 ≤ length words.old) × (self.count ≤ max_frames) × (self.size ≤ max_nodes) × (self.first ≤ max_frames) }
        ensures { words.new ≡ over words.old 0 (self.count ∷ self.size ∷ self.first ∷ 0 ∷ []) }
    {
        words[..4].copy_from_slice(&[self.count as Word, self.size as Word, self.first as Word, 0]);
    }
}
