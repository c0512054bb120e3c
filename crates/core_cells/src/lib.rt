// The trees of the core cells (CoreCellInfo of the source): built for the cells with more than a few core frames, and asked for the count
// of a frame, or only whether it is 0, which whole numbers mostly tell without the tree.
// They are built in words of one lent slice, where `n` is the number of frames, `k` the number of cells: `CoreCells` then shares its first 6n words
// and those from 16n on, and what lies between is free for others.
#![tactic(auto)]

mod asking;
mod building;
mod cells;
mod pairs;
pub mod spans;

pub use building::{NODES, PATHS, build_trees, is_core_cell, path_limit};
pub use cells::CoreCells;
