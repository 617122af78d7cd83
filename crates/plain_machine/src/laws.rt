//! Laws of the plain world, each the contract of a function that does nothing.

ghost use Rattle.plain_machine.specs.Change.{Change, apply};
ghost use Rattle.plain_machine.specs.Conditions.{Allowed};
ghost use Rattle.plain_machine.specs.Plain.{PlainWorld};
ghost use Rattle.plain_machine.specs.Sound.{IsSound};

/// Each change of a sound world leaves a sound world, where it may be made.
///
/// A world is sound where this holds. Its classes have ascending numbers, bases that are there and do
/// not go round, an order, a solid class and, but for `object`, a best base. The node of a class's
/// number is that class, and no other node is. All that anything names is there, and no name stands
/// twice among attributes or variables. Each object holds what the objects of its class hold, its dict
/// is one, the keys of a dict differ, and its members stand in places of its class. The offsets of a
/// member descriptor are those of places of the objects of its class. A running body is that of a
/// function, and has a value for each of its parameters.
///
/// When a change may be made:
///
/// - a new object: its class is there, and its objects hold such a thing, which is no class. What this
///   names is there, the offsets of a member descriptor are those of places, and the keys of a dict
///   differ. Where the object gets a dict, the class of dicts is there;
/// - a new class: its number is the next node's, its metaclass is there and is one, it has bases, all
///   there, an order and a best base, and its attributes are there, under names that differ;
/// - a variable: its value is there;
/// - an own attribute of a class, or the class's name: a script made the class, and a value that is set
///   is there;
/// - the bases of a class: a script made it, the classes stay sound, and each class keeps its layout;
/// - the class of an object: the new one is there and has the same layout;
/// - a member: it stands in a place of the object's class, and its value is there. Any can be emptied;
/// - the dict of an object: it had one, and the new one is a dict;
/// - what an object holds: it is of the same kind as before, and no class, number or text. What it
///   names is there, the offsets of a member descriptor are those of places, the keys of a dict differ,
///   and a function keeps its parameters.
pub fn changes_keep_sound()
    ensures { (w : PlainWorld) (change : Change) → Allowed w change → IsSound w → IsSound (apply w change) }
{}
