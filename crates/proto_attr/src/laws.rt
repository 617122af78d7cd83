//! Who wins where an object is asked for an attribute.

ghost use Rattle.proto_attr.specs.Laws.{AnswerIsGiven, ClassIsLast, DictIsNext, GetterAndSetterWins, NeitherHasIt};

/// What the rows answer that read an attribute in the way of objects, with the object's own dict or one that is given. A
/// value of the class that gets and sets wins over the dict. The dict wins over any other value of the class. What the
/// class has is last, asked for what it gives if it gets, and the answer itself if not.
pub fn laws_of_generic()
    ensures data { GetterAndSetterWins }
    ensures dict { DictIsNext }
    ensures class { ClassIsLast }
    ensures neither { NeitherHasIt }
    ensures given { AnswerIsGiven }
{}
