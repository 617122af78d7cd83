//! A class, its best base, and so on.

ghost use Rattle.class_table.specs.Below.{true, Some, None, IfSome, YieldsFirstBy, item_count, is_class, base, chain_from, base_chain, IsChain};
ghost use Rattle.std.specs.Prelude.{◌≡◌, ◌∷◌, ◌↔◌};
ghost use Rattle.class_table.specs.Stored.{classes_of};
ghost use Rattle.class_table.specs.Keys.{number_of};
ghost use Rattle.class_table.specs.Coherent.{IsCoherent};

use crate::place::stored_at;
use crate::stored_classes::StoredClasses;
use py_node::PyTypeRef;
use std::marker::Model;

/// A class, its best base, the best base of that one, and so on, up to the class that has none.
#[derive(Drop)]
pub struct BaseChain<'a> {
    classes: &'a StoredClasses,
    next: Option<PyTypeRef>,
}

impl<'a> Model for BaseChain<'a> {
    ghost use Rattle.std.specs.Prelude.{◌≡◌, ℕ, true, List, IfSome};
    ghost use Rattle.class_model.specs.Class.{is_class};
    ghost use Rattle.class_model.specs.Chain.{chain_from};
    ghost use Rattle.class_table.specs.Stored.{classes_of};
    ghost use Rattle.class_table.specs.Keys.{number_of};
    ghost use Rattle.class_table.specs.Coherent.{IsCoherent};

    ghost Value = { List ℕ };

    ghost view = { λ s. chain_from (classes_of s.classes.now) (number_of s.next) };

    ghost invariant = { λ s. IsCoherent s.classes.now ×
        IfSome s.next (λ c. is_class (classes_of s.classes.now) c.0 ≡ true) };
}

impl<'a> Iterator for BaseChain<'a> {
    type Item = PyTypeRef;

    ghost next_gives = { YieldsFirstBy (λ c. c.0) (λ s. s) };

    ghost remaining = { item_count (λ s. s) };

    fn next(&mut self) -> Option<PyTypeRef> {
        let class = self.next?;
        self.next = base_of(self.classes, class);
        Some(class)
    }
}

// The chain from a class on.
pub(crate) fn chain(classes: &StoredClasses, class: PyTypeRef) -> BaseChain<'_>
    requires coherent { IsCoherent classes.now }
    requires there { is_class (classes_of classes.now) class.0 ≡ true }
    ensures chain { result ≡ base_chain (classes_of classes.now) class.0 }
    ensures whole { IsChain (base (classes_of classes.now)) (Some class.0) result }
{
    BaseChain {
        classes,
        next: Some(class),
    }
}

// The best base of a class, from which its chain goes on.
pub(crate) fn base_of(classes: &StoredClasses, class: PyTypeRef) -> Option<PyTypeRef>
    requires coherent { IsCoherent classes.now }
    requires there { is_class (classes_of classes.now) class.0 ≡ true }
    ensures base { number_of result ≡ base (classes_of classes.now) class.0 }
    ensures there { IfSome result (λ b. is_class (classes_of classes.now) b.0 ≡ true) }
    ensures root { (result ≡ None) ↔ (class.0 ≡ 0) }
    ensures chain { chain_from (classes_of classes.now) (Some class.0) ≡
        class.0 ∷ chain_from (classes_of classes.now) (number_of result) }
{
    stored_at(classes, class).base()
}
