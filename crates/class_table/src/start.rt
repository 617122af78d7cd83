//! What a world begins with: the names that it knows, by whose numbers slots are read, and the built-in classes.

ghost use Rattle.class_table.specs.Below.{map, IfOk, known_texts, AreDistinct, built_class, built_in_classes};
ghost use Rattle.std.specs.Prelude.{◌≡◌};
ghost use Rattle.class_table.specs.New.{class_of_new};
ghost use Rattle.class_table.specs.Start.{start_classes};

use crate::attributes_of_built_ins::add_own_attrs;
use crate::stored::NewClass;
use crate::table::ClassTable;
use py_node::built_in::built_ins;
use py_node::known::all_known;
use py_node::{BuiltIn, Known, Names, OutOfMemory, PyAttributes, PyTypeFlags};
use std::alloc::Global;

/// The table of names of a new world: those that every world knows, so that each has its number.
pub fn known_names(alloc: Global) -> Result<Names, OutOfMemory>
    ensures { IfOk result (λ n. n ≡ known_texts) }
{
    table_of(alloc, all_known())
}

// A table of names, no two of whose texts are alike.
fn table_of(alloc: Global, rows: &[(Known, &str)]) -> Result<Names, OutOfMemory>
    requires { AreDistinct (map (λ r. r.1.now) rows.now) }
    ensures { IfOk result (λ n. n ≡ map (λ r. r.1.now) rows.now) }
{
    let mut names = Names::new(alloc);
    for row in rows {
        names.intern(row.1)?;
    }
    Ok(names)
}

impl ClassTable {
    /// A table of the classes with which a world begins: the built-in ones with their own attributes. Each attribute has
    /// the number of its name and that of the object that it holds there. Room for what look-ups find is reserved.
    pub fn new(alloc: Global) -> Result<ClassTable, OutOfMemory>
        ensures { IfOk result (λ t. t ≡ start_classes) }
    {
        let mut table = ClassTable::without_rows(alloc)?;
        table.reserve_rows()?;
        Ok(table)
    }

    /// The same for those who only read it: what look-ups find is not kept, and no room is reserved for it.
    pub fn without_rows(alloc: Global) -> Result<ClassTable, OutOfMemory>
        ensures { IfOk result (λ t. t ≡ start_classes) }
    {
        let mut table = ClassTable::bare(alloc)?;
        add_own_attrs(&mut table)?;
        Ok(table)
    }

    // A table of the built-in classes without any attributes: `put_attr` puts each.
    fn bare(alloc: Global) -> Result<ClassTable, OutOfMemory>
        ensures { IfOk result (λ t. t ≡ built_in_classes) }
    {
        let mut table = ClassTable::empty(alloc);
        for row in built_ins() {
            let new = new_class(alloc, row.0)?;
            table.add_class(new)?;
        }
        Ok(table)
    }
}

// A built-in class, to be put into the table.
fn new_class(alloc: Global, class: BuiltIn) -> Result<NewClass, OutOfMemory>
    ensures { IfOk result (λ n. class_of_new n ≡ built_class class) }
{
    let name = String::from_str(alloc, class.name())?;
    let mut bases = Vec::new(alloc);
    if let Some(base) = class.base() {
        bases.push(base)?;
    }
    let flags = class.flags();
    Ok(NewClass {
        name,
        number: class.class(),
        bases,
        attrs: PyAttributes::new(alloc),
        members: Vec::new(alloc),
        flags,
        brings: flags.has_feature(PyTypeFlags::HAS_DICT),
    })
}
