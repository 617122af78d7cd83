//! A view of classes for readers that never wait: they answer from changes that were published, or say that they are gone.
#![tactic(auto)]

pub mod answers;
pub mod copy;
pub mod faults;
pub mod pane;
pub mod plain;
pub mod press;
pub mod reader;
pub mod rule;
pub mod ruled;
pub mod same;
pub mod view;
pub mod writer;

pub use pane::{Failed, Pane};
pub use plain::PlainPane;
pub use reader::{ClassReader, Gone, ReaderFault};
pub use ruled::RuledPane;
pub use view::ClassView;
pub use writer::{ClassWriter, Told};
