//! Hierarchies of classes by themselves.
//!
//! At the root: orders of classes, and the cycles that stand against them.
#![tactic(auto)]

pub mod accepting;
pub mod checking;
pub mod class_orders;
pub mod cycles;
mod forms;
pub mod hierarchy;
pub mod hierarchy_text;
mod known;
mod least;
mod led;
mod left;
pub mod levels;
mod line;
pub mod orders;
mod pairs;
mod place;
mod ranks;
pub mod report;
pub mod report_text;
mod told;
mod walk;
pub mod wellformed;

pub use accepting::accept;
pub use checking::{check, check_par};
pub use cycles::cycle_of;
pub use forms::is_in_order;
pub use hierarchy::{Entry, Hierarchy};
pub use levels::all_orders_par;
pub use orders::all_orders;
pub use place::name_of;
pub use report::{Line, Pair, Report, Wrong};
pub use wellformed::well_formed;
