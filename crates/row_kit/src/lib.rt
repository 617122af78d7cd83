//! What rows and natives share: arguments that they take, objects that they give, what they ask.
#![tactic(auto, using(class_world::proofs::Items::item_holds))]

pub mod called;
pub mod class_attributes;
pub mod class_names;
pub mod class_nodes;
pub mod entries;
pub mod give;
pub mod give_containers;
pub mod int_values;
pub mod proto_base;
pub mod questions;
pub mod signatures;
pub mod take_classes;
pub mod take_containers;
pub mod take_numbers;
