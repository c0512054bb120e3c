// The box of a frame at each level, and the test of a box against a frame.
#![tactic(auto)]

pub mod boxes;
pub mod grid;
pub mod paths;
pub mod points;
mod run;

pub use run::{Frames, read_counts};

// A box: its centre, of which the first coordinates up to the number of channels count, and its side.
#[derive(Clone, Copy)]
pub struct Box {
    pub centre: [f64; 4],
    pub side: f64,
}

// How a box lies to a frame's ball.
#[derive(Clone, Copy)]
pub enum IntersectionType {
    FullyCovered,
    Disjoint,
    Intersecting,
}
