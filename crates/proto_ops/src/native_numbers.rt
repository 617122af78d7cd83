//! The natives of None, NotImplemented, whole numbers and truth values that ask no task.
#![tactic(auto, using(class_world::proofs::Items::item_holds))]

mod arithmetic;
mod bits;
mod compare;
mod fixed;
mod number;
pub mod reckon;

pub use arithmetic::arithmetic_native;
pub use bits::bits_native;
pub use compare::compare_native;
pub use fixed::fixed_native;
pub use number::number_native;
