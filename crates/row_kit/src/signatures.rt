//! The signature that a native's text for readers begins with.
#![tactic(auto)]

mod signature;

pub use signature::get_text_signature_from_internal_doc;
