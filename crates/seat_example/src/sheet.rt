//! The value under the lock.
ghost use Rattle.seat_example.specs.Below.{[]};
ghost use Rattle.std.specs.Prelude.{◌≡◌, ◌∷◌, ◌++◌, ◌⊎◌};

use seat_lock::Turns;

/// The numbers of the seats that signed, in their order.
#[derive(Drop)]
pub struct Sheet {
    pub names: Vec<u32>,
}

impl Turns for Sheet {
    ghost use Rattle.seat_example.specs.Sheets.{Stands};

    type Entry = u32;

    ghost stands = { Stands };
}

impl Sheet {
    /// A sheet with room for as many names as the vector has.
    pub fn new(names: Vec<u32>) -> Self
        requires { names.items ≡ [] }
        ensures { result.names.items ≡ [] }
    {
        Sheet { names }
    }

    /// Signs, where there is room.
    pub fn sign(&mut self, name: u32)
        ensures { (self.new.names.items ≡ self.old.names.items)
            ⊎ (self.new.names.items ≡ self.old.names.items ++ name ∷ []) }
    {
        if self.names.len() < self.names.capacity() {
            self.names.push_reserved(name);
        }
    }

    /// Who signed first.
    pub fn first(&self) -> Option<u32> {
        self.names.first().copied()
    }

    /// How often a seat signed.
    pub fn count(&self, name: u32) -> usize {
        self.names.iter().filter(|&&n| n == name).count()
    }
}
