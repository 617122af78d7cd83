//! What is told of the orders of a hierarchy's classes.

use thiserror::Error;

/// One class before another in a list: in the linearisation of a base, or in the list of bases where that is `None`.
#[derive(Clone, Copy, PartialEq, Eq, Debug)]
pub struct Pair {
    pub first: u64,
    pub second: u64,
    pub list: Option<u64>,
}

/// What is told of a class.
#[derive(Debug, Drop)]
pub enum Line {
    /// Its linearisation.
    Order(Vec<u64>),
    /// It has no order, for this cycle.
    Cycle(Vec<Pair>),
    /// It has no order, since this base has none: the first such.
    Without(u64),
}

/// A line for each class but the first.
#[derive(Debug, Drop)]
pub struct Report {
    pub lines: Vec<Line>,
}

/// The first line of a report that is not right, counting from 1.
#[derive(Clone, Copy, PartialEq, Eq, Debug, Error)]
#[error("line {line} of the report is not right")]
pub struct Wrong {
    pub line: usize,
}
