//! Attributes that are read, set and taken out.

ghost use Rattle.proto_call.specs.Below.{AllHold, Holds, IsName, AreNodes, of_node_ref, of_option, of_step, two_of};
ghost use Rattle.proto_call.specs.EvalForms.Say.{attr_say, del_attr_say, set_attr_say};
ghost use Rattle.proto_call.specs.EvalForms.Rows.{Goes, of_eval_kept};

use crate::eval_forms::EvalKept;
use crate::eval_forms::outcome::Outcome;
use class_world::World;
use class_world::args::two_of;
use py_node::{AttributeTask, Cause, PyObjectRef, PySetterValue, PyStrInterned, Step, Task};

// An attribute of the operand.
pub(crate) fn attr_step(name: PyStrInterned, value: Option<PyObjectRef>) -> Step<EvalKept>
    ensures goes { (w : World) → Goes (λ t u. attr_say u (t.text name.0) value) w w result }
    ensures safe { (w : World) → Holds w (IsName name) → AllHold w (of_option of_node_ref value) →
        AllHold w (of_step of_eval_kept result) }
{
    match value {
        None => Step::raise(Cause::ArgCount),
        Some(object) => Step::Ask(
            Task::Attribute(AttributeTask::GetAttr(object, name)),
            EvalKept::Pass,
        ),
    }
}

// An attribute is set to the second operand.
pub(crate) fn set_attr_step(name: PyStrInterned, values: &[PyObjectRef]) -> Step<EvalKept>
    ensures goes { (w : World) → Goes (λ t u. set_attr_say u (t.text name.0) (two_of values.now)) w w result }
    ensures safe { (w : World) → Holds w (IsName name) → Holds w (AreNodes values.now) →
        AllHold w (of_step of_eval_kept result) }
{
    match two_of(values) {
        None => Step::raise(Cause::ArgCount),
        Some((target, value)) => Step::Ask(
            Task::Attribute(AttributeTask::SetAttr(target, name, PySetterValue::Assign(value))),
            EvalKept::Made(Outcome::Nothing),
        ),
    }
}

// An attribute of the operand is taken out.
pub(crate) fn del_attr_step(name: PyStrInterned, value: Option<PyObjectRef>) -> Step<EvalKept>
    ensures goes { (w : World) → Goes (λ t u. del_attr_say u (t.text name.0) value) w w result }
    ensures safe { (w : World) → Holds w (IsName name) → AllHold w (of_option of_node_ref value) →
        AllHold w (of_step of_eval_kept result) }
{
    match value {
        None => Step::raise(Cause::ArgCount),
        Some(object) => Step::Ask(
            Task::Attribute(AttributeTask::SetAttr(object, name, PySetterValue::Delete)),
            EvalKept::Made(Outcome::Nothing),
        ),
    }
}
