//! Whether objects have a dict, after their class or its bases are changed.

ghost use Rattle.vm_calls.specs.Below.{ℕ, List, true, None, with_bases, is_class, gives_dict, refused_class, refused_rebase, AreThere, Reading, plain};
ghost use Rattle.std.specs.Prelude.{◌≡◌};

use class_world::World;

/// Other bases for a class that pass every test leave each class as it was in this: it gives its objects a dict, or it
/// gives them none. And an object may get another class only where both give a dict or neither does.
pub fn changes_keep_dicts(world: &World)
    ensures bases { (t : Reading) (c : ℕ) (bs : List ℕ) (d : ℕ) → is_class (plain t world.now).classes c ≡ true →
        AreThere (plain t world.now).classes bs → refused_rebase (plain t world.now).classes c bs ≡ None →
        is_class (plain t world.now).classes d ≡ true →
        gives_dict (with_bases (plain t world.now).classes c bs) d ≡ gives_dict (plain t world.now).classes d }
    ensures class { (t : Reading) (c d : ℕ) → is_class (plain t world.now).classes c ≡ true →
        is_class (plain t world.now).classes d ≡ true → refused_class (plain t world.now).classes c d ≡ None →
        gives_dict (plain t world.now).classes c ≡ gives_dict (plain t world.now).classes d }
{
    world.sound();
}
