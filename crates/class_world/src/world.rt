//! The world, and how it begins.

ghost use Rattle.class_world.specs.Below.{ℕ, List, false, [], map, Some, IfOk, slice_get, BuiltIn, place_of, flags_of, started_of, known_texts, start_classes, change_of, AreSameButForNames, AreMade, shown, first_classes, the_none_type, none, start, IsSound};
ghost use Rattle.std.specs.Prelude.{◌≡◌, ◌<◌};
ghost use Rattle.plain_machine.specs.World.{class_at};
ghost use Rattle.class_world.specs.Held.{Held};
ghost use Rattle.class_world.specs.Reading.{Reading, Reads, plain, IsReadable};
ghost use Rattle.class_world.specs.Sound.{flags_at, is_marked_heap};

use crate::attributes_of_built_ins::opening_nodes;
use crate::scope::Scope;
use class_table::ClassTable;
use class_table::class_log::{ClassChange, ClassLog};
use class_table::start::known_names;
use py_node::{BodyCall, Form, Names, Node, OutOfMemory, PyAttributes};
use std::alloc::Global;
use std::marker::Model;

/// The world: tables of names and of expressions, nodes and classes, variables, a scope for each
/// running body, the bodies that were started in this command, and a log of the changes of classes.
#[derive(Drop)]
pub struct World {
    pub(crate) names: Names,
    pub(crate) forms: Vec<Form>,
    pub(crate) nodes: Vec<Node>,
    pub(crate) classes: ClassTable,
    pub(crate) vars: PyAttributes,
    pub(crate) scopes: Vec<Scope>,
    pub(crate) calls: Vec<BodyCall>,
    pub(crate) log: ClassLog,
    pub(crate) alloc: Global,
}

impl Model for World {
    ghost use Rattle.std.specs.Prelude.{map};
    ghost use Rattle.py_node.specs.Replies.{started_of};
    ghost use Rattle.class_world.specs.Held.{Held};

    ghost Value = { Held };

    ghost use Rattle.class_world.specs.Sound.{Sound};

    ghost view = { λ a. record {
      names = a.names;
      forms = a.forms.items;
      nodes = a.nodes.items;
      classes = a.classes;
      vars = a.vars;
      scopes = a.scopes.items;
      calls = map started_of a.calls.items;
      log = a.log;
    } };

    ghost invariant = { λ a. Sound (record {
      names = a.names;
      forms = a.forms.items;
      nodes = a.nodes.items;
      classes = a.classes;
      vars = a.vars;
      scopes = a.scopes.items;
      calls = map started_of a.calls.items;
      log = a.log;
    }) };
}

#[tactic(auto, unfolding(crate::specs::Reading::plain))]
impl World {
    /// The world of a new machine: the names that are known, the built-in classes with their nodes and their
    /// own attributes, and None, NotImplemented, False and True. The classes are those of a new table of classes.
    pub fn new(alloc: Global) -> Result<World, OutOfMemory>
        ensures start { IfOk result (λ w. (t : Reading) → Reads t w → plain t w ≡ start) }
        ensures known { IfOk result (λ w. (n : ℕ) (x : List ℕ) → slice_get known_texts n ≡ Some x →
            slice_get w.names n ≡ Some x) }
        ensures classes { IfOk result (λ w. w.classes ≡ start_classes) }
        ensures log { IfOk result (λ w. w.log ≡ []) }
    {
        let names = known_names(alloc)?;
        let nodes = opening_nodes(alloc)?;
        let classes = ClassTable::new(alloc)?;
        Ok(World {
            names,
            forms: Vec::new(alloc),
            nodes,
            classes,
            vars: PyAttributes::new(alloc),
            scopes: Vec::new(alloc),
            calls: Vec::new(alloc),
            log: ClassLog::new(alloc),
            alloc,
        })
    }

    /// What the world takes its memory from.
    pub fn alloc(&self) -> Global {
        self.alloc
    }

    /// The numbers can be read: the theorems, which speak of each reading, speak of at least one.
    pub fn readable(&self)
        ensures { IsReadable self.now }
    {
        let _names = self.names.len();
        let _forms = self.forms.len();
    }

    /// The classes, by themselves. They name special methods by the numbers of known names.
    pub fn classes(&self) -> &ClassTable
        ensures same { result.now ≡ self.now.classes }
        ensures known { (n : ℕ) (x : List ℕ) → slice_get known_texts n ≡ Some x → slice_get self.now.names n ≡ Some x }
    {
        &self.classes
    }

    /// The accepted changes of classes, in the order in which they were made since the world was new. What they show are
    /// the world's classes but for their names, of which no change tells. Each was made in its turn: what it names was
    /// there, and no test refused it.
    pub fn class_log(&self) -> &[ClassChange]
        ensures log { map change_of result.now ≡ self.now.log }
        ensures shown { AreSameButForNames (shown (map change_of result.now)) self.now.classes }
        ensures made { AreMade first_classes (map change_of result.now) }
    {
        self.log.changes()
    }

    /// The world is sound.
    pub fn sound(&self)
        ensures { (t : Reading) → IsSound (plain t self.now) }
    {
        self.classes.sound();
    }

    /// Each built-in class has the flags of its row, None is of its own class, and no class that a script made marks its
    /// objects as methods.
    pub fn keeps_built_ins(&self)
        ensures flags { (t : Reading) (b : BuiltIn) →
            flags_at (plain t self.now).classes (place_of b) ≡ Some (flags_of b) }
        ensures of_none { (t : Reading) → class_at (plain t self.now) none ≡ Some the_none_type }
        ensures unmarked { (t : Reading) (c n : ℕ) → flags_at (plain t self.now).classes c ≡ Some n →
            is_marked_heap n ≡ false }
    {
        let _nodes = &self.nodes;
    }
}
