//! What holds of the tally of a run, whatever its commands do.

ghost use Rattle.generator.specs.Below.{ℕ, PlainTask, PlainWorld, Saying, plain_run};
ghost use Rattle.std.specs.Prelude.{◌≡◌, ◌+◌};
ghost use Rattle.generator.specs.Commands.{generated};
ghost use Rattle.generator.specs.Summary.{values, raised, budget};

/// The replies to the commands of a seed are as many as the classes and the changes: values, faults and ends of the
/// budget add up to that, from every world, with any units and whatever rows say.
pub fn replies_add_up()
    ensures { (say : Saying PlainTask) (w : PlainWorld) (seed count units : ℕ) →
        let replies = (plain_run say w (generated seed count) units).replies in
        values replies + raised replies + budget replies ≡ 8 + count }
{}
