//! The natives of descriptors, properties and `super` that ask no task, what the getters and setters of built-in
//! classes read and set, and what makes objects.
#![tactic(auto, using(class_world::proofs::Items::item_holds))]

mod attributes;
mod class_setters;
mod descriptors;
mod detail_setters;
mod details;
mod getters;
mod makers;
mod property;
mod rebase;
mod receivers;
mod setters;

pub use descriptors::{callable_native, descriptor_native, super_native, wrapper_native};
pub use detail_setters::setter_of_native;
pub use details::getter_of_native;
pub use getters::getter_native;
pub use makers::maker_native;
pub use property::property_native;
pub use receivers::own_property;
pub use setters::setter_native;
