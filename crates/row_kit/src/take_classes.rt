//! What a native takes: a class, alone, or one whose objects are those of a built-in class.

ghost use Rattle.row_kit.specs.Below.{ℕ, Ok, Err, IfErr, IfOk, Said, Ends, holds_as, Reading, plain, bindings, AreNodes, IsClass, IsOf, Holds};
ghost use Rattle.std.specs.Prelude.{◌≡◌};
ghost use Rattle.row_kit.specs.TakeClasses.{with_heir, with_class, with_lone_class};

use class_world::World;
use class_world::takes::one;
use py_node::{BuiltIn, Cause, FuncArgs, PyObjectRef, PyTypeRef, Raised};

/// The class that is the first argument, where its objects are those of a built-in class, or why it is refused.
pub fn heir(world: &World, built_in: BuiltIn, args: &[PyObjectRef]) -> Result<PyTypeRef, Raised>
    requires { Holds world.now (AreNodes args.now) }
    ensures given { IfOk result (λ c. (t : Reading) (go : ℕ → Said) →
        with_heir (plain t world.now) built_in args.now go ≡ go c.0) }
    ensures refused { IfErr result (λ x. (t : Reading) (go : ℕ → Said) →
        with_heir (plain t world.now) built_in args.now go ≡ Ends (plain t world.now) (Err x)) }
    ensures class { IfOk result (λ c. Holds world.now (IsClass c.0)) }
    ensures of { IfOk result (λ c. Holds world.now (IsOf c.0 (holds_as built_in))) }
{
    let class = own_class(world, args)?;
    match world.nearest_built_in(class) {
        Some(nearest) if nearest.0 == built_in.class().0 => Ok(class),
        _ => Err(Raised::new(Cause::UnsafeNew)),
    }
}

/// The class that the first argument is, or why it is refused.
pub fn own_class(world: &World, args: &[PyObjectRef]) -> Result<PyTypeRef, Raised>
    requires { Holds world.now (AreNodes args.now) }
    ensures given { IfOk result (λ c. (t : Reading) (go : ℕ → Said) →
        with_class (plain t world.now) args.now go ≡ go c.0) }
    ensures refused { IfErr result (λ x. (t : Reading) (go : ℕ → Said) →
        with_class (plain t world.now) args.now go ≡ Ends (plain t world.now) (Err x)) }
    ensures class { IfOk result (λ c. Holds world.now (IsClass c.0)) }
{
    match args {
        [] => Err(Raised::new(Cause::ArgCount)),
        [o, ..] => match world.class_number(*o) {
            None => Err(Raised::new(Cause::SelfType)),
            Some(class) => Ok(class),
        },
    }
}

/// The class that the only argument is, or why the arguments are refused.
pub fn lone_class(world: &World, call: FuncArgs<'_>) -> Result<PyTypeRef, Raised>
    requires { Holds world.now (AreNodes call.args.now) }
    ensures given { IfOk result (λ c. (t : Reading) (go : ℕ → Said) →
        with_lone_class (plain t world.now) call.entry.args.now (bindings t call.entry.kw.now) go ≡ go c.0) }
    ensures refused { IfErr result (λ x. (t : Reading) (go : ℕ → Said) →
        with_lone_class (plain t world.now) call.entry.args.now (bindings t call.entry.kw.now) go ≡ Ends (plain t world.now) (Err x)) }
    ensures class { IfOk result (λ c. Holds world.now (IsClass c.0)) }
{
    let class = own_class(world, call.args)?;
    let _object = one(call)?;
    Ok(class)
}
