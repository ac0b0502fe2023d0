//! The parts of a batch, one after another.
ghost use Rattle.std.specs.Prelude.{◌≡◌, ◌++◌, ◌∷◌, ◌<◌, ◌^◌, ℕ, List, [], OnOk, IfOk, decimal, codes};
ghost use Rattle.report_lines.specs.Lines.{joined};
ghost use Rattle.plan_endings.specs.Ending.{text_of, problem_line, batch_of};
ghost use Rattle.plan_endings.specs.Growing.{Has};

use crate::{Ending, RunEnd};
use pl_io::{Bytes, Memory};
use report_lines::push_number;
use std::alloc::Global;

/// A batch to which parts are added.
#[derive(Drop)]
pub struct Growing {
    count: u64,
    status: u8,
    text: Vec<u8>,
}

/// Appends the line before the part of a problem, which is counted from 1.
fn push_problem(text: &mut Vec<u8>, number: u64) -> Result<(), Memory>
    ensures { OnOk result (text.new.items ≡ text.old.items ++ joined (problem_line number ∷ [])) }
{
    text.extend_from_slice(b"; problem ")?;
    push_number(text, number)?;
    text.extend_from_slice(b"\n")?;
    Ok(())
}

impl Growing {
    /// A batch without parts.
    pub fn new(alloc: Global) -> Growing
        ensures { Has result [] }
    {
        Growing {
            count: 0,
            status: 0,
            text: Vec::new(alloc),
        }
    }

    /// Adds the part of the next problem.
    pub fn push(&mut self, alloc: Global, part: Ending) -> Result<(), Memory>
        requires { self.old.count < 2 ^ 63 }
        ensures { OnOk result ((parts : List _) → Has self.old parts → Has self.new (parts ++ part ∷ [])) }
    {
        let number = self.count + 1;
        push_problem(&mut self.text, number)?;
        let status = part.status();
        let due = part.text(alloc)?;
        self.text.extend_from_slice(due.as_slice())?;
        self.status = self.status.max(status);
        self.count = number;
        Ok(())
    }

    /// How the batch ends.
    pub fn end(self) -> Ending
        ensures { (parts : List _) → Has self parts → result ≡ batch_of parts }
    {
        Ending::Parts {
            status: self.status,
            text: Bytes::of(self.text),
        }
    }
}
