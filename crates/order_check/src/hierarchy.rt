//! Classes with their bases.

/// A class: its key, its name, and its bases by their keys.
#[derive(Debug, Drop)]
pub struct Entry {
    pub key: u64,
    pub name: String,
    pub bases: Vec<u64>,
}

/// Some classes, each with its bases.
#[derive(Debug, Drop)]
pub struct Hierarchy {
    pub entries: Vec<Entry>,
}
