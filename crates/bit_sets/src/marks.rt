ghost use Rattle.std.specs.Prelude.{◌≡◌, ◌<◌, ◌≤◌, ◌*◌, ◌==◌, [], true, length, slice_set, IfOk, OnOk, OnErr};
ghost use Rattle.std.specs.List.{list_any};
ghost use Rattle.containers.specs.Rising.{put};
ghost use Rattle.bit_sets.specs.Marks.{places, at};

use containers::memory::Memory;
use std::alloc::Global;
use std::marker::Model;

/// A set of numbers: for each whether it is in, and which were put in since it was empty.
#[derive(Drop)]
pub struct Marks {
    on: Vec<bool>,
    touched: Vec<u32>,
}

impl Model for Marks {
    ghost use Rattle.std.specs.Prelude.{List, Bool};
    ghost use Rattle.bit_sets.specs.Marks.{Covers};

    ghost Value = { List Bool };

    ghost view = { λ d. d.on.items };

    ghost invariant = { λ d. Covers d.touched.items d.on.items };
}

impl Marks {
    /// The set without numbers, over twice so many: the codes of the literals of so many variables.
    pub fn new(alloc: Global, variables: u32) -> Result<Marks, Memory>
        requires { variables ≤ 2147483647 }
        ensures empty { IfOk result (λ d. places 0 d ≡ []) }
        ensures len { IfOk result (λ d. length d ≡ 2 * variables) }
    {
        Ok(Marks {
            on: vec![in alloc; false; 2 * variables as usize]?,
            touched: Vec::new(alloc),
        })
    }

    /// Whether a number is in.
    pub fn has(&self, number: u32) -> bool
        requires { number < length self.now }
        ensures mark { result ≡ at self.now number }
        ensures member { result ≡ list_any (λ m. m == number) (places 0 self.now) }
    {
        self.on[number as usize]
    }

    /// Puts a number in.
    pub fn put(&mut self, number: u32) -> Result<(), Memory>
        requires { number < length self.old }
        ensures ok { OnOk result (self.new ≡ slice_set self.old number true) }
        ensures put { OnOk result (places 0 self.new ≡ put (places 0 self.old) number) }
        ensures err { OnErr result (self.new ≡ self.old) }
    {
        self.touched.push(number)?;
        self.on[number as usize] = true;
        Ok(())
    }

    /// Takes all numbers out.
    pub fn clear(&mut self)
        ensures emptied { places 0 self.new ≡ [] }
        ensures len { length self.new ≡ length self.old }
    {
        while let Some(touched) = self.touched.pop() {
            self.on[touched as usize] = false;
        }
    }
}
