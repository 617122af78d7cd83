//! How two sequences of items are compared, by how many items they have.

ghost use Rattle.std.specs.Prelude.{◌≡◌};
ghost use Rattle.native_containers.specs.NativeCompare.Containers.{asked, turns_of};
ghost use Rattle.native_containers.specs.Below.{compare_job};

use py_node::{CompareNative, CompareTask, PyObjectRef};

/// What two items are asked that stand in the same place.
#[derive(Clone, Copy)]
pub enum Way {
    /// Whether they are one or equal.
    Equal,
    /// Whether the first is less, unless they are equal.
    Less,
    /// Whether the first is greater, unless they are equal.
    Greater,
}

/// How two sequences are compared.
#[derive(Clone, Copy)]
pub enum Turns {
    /// Items are asked in turn, and this is given where none decide.
    Each(Way, bool),
    /// The lengths tell, and no item is asked.
    Told(bool),
    /// It is no comparison of two objects.
    Missing,
}

/// How sequences of so many items are compared.
pub(crate) fn turns_of(native: CompareNative, first: usize, second: usize) -> Turns
    ensures { result ≡ turns_of native first second }
{
    match native {
        CompareNative::Eq => {
            if first == second {
                Turns::Each(Way::Equal, true)
            } else {
                Turns::Told(false)
            }
        }
        CompareNative::Ne => {
            if first == second {
                Turns::Each(Way::Equal, false)
            } else {
                Turns::Told(true)
            }
        }
        CompareNative::Lt => Turns::Each(Way::Less, first < second),
        CompareNative::Le => Turns::Each(Way::Less, first <= second),
        CompareNative::Ge => Turns::Each(Way::Greater, second <= first),
        CompareNative::Gt => Turns::Each(Way::Greater, second < first),
        CompareNative::All => Turns::Missing,
    }
}

/// What two items are asked.
pub(crate) fn asked(way: Way, first: PyObjectRef, second: PyObjectRef) -> CompareTask
    ensures { compare_job result ≡ asked way first second }
{
    match way {
        Way::Equal => CompareTask::IdEq(first, second),
        Way::Less => CompareTask::SeqLt(first, second),
        Way::Greater => CompareTask::SeqGt(first, second),
    }
}
