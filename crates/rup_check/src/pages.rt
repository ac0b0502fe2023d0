//! Clauses with numbers, of which those that are taken out give their room back.
//!
//! A checker of long derivations learns and drops clauses by the million, and few of them are kept at any time. The numbers go on
//! rising, so the clauses stand in pages of 128 numbers each; a page in which more than half of the clauses that stand there were
//! taken out is packed anew. Of a number whose clause was taken out there is one byte left, and its part of the page's table.
ghost use Rattle.std.specs.Prelude.{◌≡◌, ◌∷◌, [], ◌++◌, ◌<◌, Ok, true, false, Some, None, length, set, slice_index_or, IfSome, IfNone, OnOk, OnErr};
ghost use Rattle.rup_check.specs.own.Pages.{joined, AreFull, AreWhole};

use crate::page::{PAGE, Page};
use clause_base::literal::Lit;
use std::alloc::{AllocError, Global};
use std::marker::Model;

/// Clauses, each with its number from 0 on. Contracts see the list of them, with `None` for one that was taken out.
#[derive(Drop)]
pub struct Pages {
    alloc: Global,
    pages: Vec<Page>,
}

impl Model for Pages {
    ghost use Rattle.std.specs.Prelude.{List, ℕ, Option};
    ghost use Rattle.rup_check.specs.own.Pages.{joined, AreFull};

    ghost Value = { List (Option (List ℕ)) };

    ghost view = { λ p. joined p.pages.items };

    ghost invariant = { λ p. AreFull p.pages.items };
}

/// Adds a clause to the last of some pages where that has room, and says whether it has. Else, and after `AllocError`, they are
/// unchanged.
fn push_last(pages: &mut Vec<Page>, clause: &[Lit]) -> Result<bool, AllocError>
    requires { AreFull pages.old.items }
    ensures full { AreFull pages.new.items }
    ensures added { result ≡ Ok true → joined pages.new.items ≡ joined pages.old.items ++ Some clause.now ∷ [] }
    ensures same { (result ≡ Ok true → ⊥) → pages.new.items ≡ pages.old.items }
    ensures whole { result ≡ Ok false → AreWhole pages.new.items }
{
    let count = pages.len();
    if count == 0 {
        return Ok(false);
    }
    let last = &mut pages[count - 1];
    if last.len() == PAGE {
        return Ok(false);
    }
    last.push(clause)?;
    Ok(true)
}

impl Pages {
    /// No clauses. It takes no memory, and keeps the allocator for the clauses to come.
    pub fn new(alloc: Global) -> Pages
        ensures { result ≡ [] }
    {
        Pages {
            alloc,
            pages: Vec::new(alloc),
        }
    }

    /// The clause with this number, where it is there.
    #[inline]
    pub fn get(&self, number: usize) -> Option<&[Lit]>
        ensures some { IfSome result (λ clause. slice_index_or self.now number None ≡ Some clause.now) }
        ensures none { IfNone result (slice_index_or self.now number None ≡ None) }
    {
        let place = number / PAGE;
        if place >= self.pages.len() {
            return None;
        }
        let page = &self.pages[place];
        page.get(number % PAGE)
    }

    /// Adds a clause at the end. After `AllocError` the clauses are unchanged.
    pub fn push(&mut self, clause: &[Lit]) -> Result<(), AllocError>
        ensures ok { OnOk result (self.new ≡ self.old ++ Some clause.now ∷ []) }
        ensures err { OnErr result (self.new ≡ self.old) }
    {
        if push_last(&mut self.pages, clause)? {
            return Ok(());
        }
        let mut page = Page::new(self.alloc)?;
        page.push(clause)?;
        self.pages.push(page)?;
        Ok(())
    }

    /// Takes the clause with this number out. Its room is given back at once or with that of others.
    pub fn remove(&mut self, number: usize)
        requires { number < length self.old }
        ensures { self.new ≡ set self.old number None }
    {
        let page = &mut self.pages[number / PAGE];
        page.remove(number % PAGE);
    }
}
