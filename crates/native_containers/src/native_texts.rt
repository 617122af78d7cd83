//! The natives of texts that ask no task.
#![tactic(auto, using(class_world::proofs::Items::item_holds))]

mod compare;
mod of_bytes;
pub mod own_text;
mod text;

pub use compare::compare_text;
pub use of_bytes::text_length;
pub use text::text_native;
