//! What lies outside the machine: a source that the script is read from, a sink that the text is written
//! to, and the words that the program is called with. A source or a sink may say which bytes it gives or
//! has taken; each failure raises its count of faults.
#![tactic(auto)]

pub mod faults;
pub mod memory;
pub mod read_all;
pub mod sink;
pub mod source;
pub mod standard;
pub mod words;
pub mod write_all;

pub use faults::Plan;
pub use memory::{MemorySink, MemorySource, QuietSink, QuietSource};
pub use read_all::ReadEnd;
pub use sink::Sink;
pub use source::{Failed, Source};
pub use standard::{StdSink, StdSource};
