//! The numbers that commands are answered with.

use py_node::{Reply, ReplyAnswer};
use shared_vm::Entry;

/// The number that a reply's value is.
pub fn sum_of(reply: &Reply) -> Option<u64> {
    match &reply.answer {
        ReplyAnswer::Value(_, text) => text.parse().ok(),
        _ => None,
    }
}

/// Whether each entry was answered its own place in the journal.
pub fn are_in_place(journal: &[Entry]) -> bool {
    journal.iter().enumerate().all(|(place, entry)| sum_of(&entry.reply) == Some(place as u64))
}

/// How many entries a seat has.
pub fn count_of(journal: &[Entry], seat: u32) -> usize {
    journal.iter().filter(|entry| entry.seat == seat).count()
}
