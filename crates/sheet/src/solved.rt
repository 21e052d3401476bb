ghost use Rattle.sheet.specs.Shape.{Shape};

use definitions::Run;

// A run with what it filled: M, R and the cells of its block, R for each state and maybe R for the start.
#[derive(Clone, Copy)]
pub struct Solved<'a> {
    pub run: Run,
    pub states: usize,
    pub highest: usize,
    pub cells: &'a [u64],
    ghost shape: { Shape states highest cells.now },
}
