//! What is so of the members of classes, and is the result of no call.

ghost use Rattle.proto_call.specs.Below.{ℕ, length, Some, Text, Class, first_place, place_at, solid, Reading, plain};
ghost use Rattle.std.specs.Prelude.{◌≡◌, ◌<◌, ◌+◌};
ghost use Rattle.class_model.specs.Class.{class_at};
ghost use Rattle.proto_call.specs.ClassMake.Say.{places_from};

use class_world::World;

/// The descriptor that creation makes for the member `i` of a class has the offset `places_from + i`. A class with
/// members is solid, and this offset stands for its own place `i`. Its places begin where the layout says: after the
/// members of all classes that come before it there.
pub fn members_have_their_places(world: &World)
    ensures begin { (t : Reading) (c : ℕ) (k : Class Text) → class_at (plain t world.now).classes c ≡ Some k →
        first_place (plain t world.now).classes c c ≡ Some (places_from (plain t world.now) c k.members) }
    ensures solid { (t : Reading) (c i : ℕ) (k : Class Text) → class_at (plain t world.now).classes c ≡ Some k →
        i < length k.members → solid (plain t world.now).classes c ≡ Some c }
    ensures place { (t : Reading) (c i : ℕ) (k : Class Text) → class_at (plain t world.now).classes c ≡ Some k →
        i < length k.members →
        place_at (plain t world.now).classes c (places_from (plain t world.now) c k.members + i) ≡ Some (c, i) }
{
    world.sound();
}
