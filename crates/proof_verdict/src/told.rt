//! The text of a formula, for the solver whose proof is judged.
ghost use Rattle.std.specs.Prelude.{◌≡◌, IfOk};
ghost use Rattle.sat_text.specs.Dimacs.{formula_text};
ghost use Rattle.plan_endings.specs.Ends.{OnlyMemory};

use clause_base::formula::Formula;
use pl_io::Bytes;
use plan_endings::stop::Stop;
use sat_text::dimacs::Text;
use std::alloc::Global;

/// The text of the formula of a horizon, made whole, so that nothing is written where there is no memory for it.
pub fn told(alloc: Global, word: &[u8], horizon: u32, formula: &Formula) -> Result<Bytes, Stop>
    ensures text { IfOk result (λ text. text ≡ formula_text word.now horizon formula.now) }
    ensures memory { OnlyMemory result }
{
    let mut text = Text::of(word, horizon, formula);
    let mut all = Vec::new(alloc);
    let mut piece = Vec::new(alloc);
    'telling: while text.next(&mut piece)? {
        all.extend_from_slice(piece.as_slice())?;
    }
    Ok(Bytes::of(all))
}
