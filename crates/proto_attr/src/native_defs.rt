//! Definitions of native methods: what they are as objects, and how the objects are made.
#![tactic(auto, using(class_world::proofs::Items::item_holds))]

pub mod build;
pub mod def;
pub mod extend;
pub mod member;
pub mod payloads;

pub use def::PyMethodDef;
pub use extend::extend_methods;
pub use member::{PyMemberDef, new_member};
pub use row_kit::signatures::get_text_signature_from_internal_doc;
