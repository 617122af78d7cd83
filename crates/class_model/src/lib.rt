//! What classes are: their orders, attributes, layouts and slots, as definitions that the other crates
//! cite (`specs/`), with the laws of these definitions (`proofs/`).
#![tactic(auto)]
