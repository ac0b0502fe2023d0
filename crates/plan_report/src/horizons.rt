//! The lines of horizons.
ghost use Rattle.std.specs.Prelude.{◌≡◌, ◌<◌, ◌^◌, ◌∷◌, ◌++◌, [], map, OnOk};
ghost use Rattle.std.specs.List.{flat_map};
ghost use Rattle.report_lines.specs.Lines.{joined};
ghost use Rattle.report_lines.specs.Horizons.{entry_line};
ghost use Rattle.race_outcome.specs.Ends.{word_of, line_view, conflicts_in};
ghost use Rattle.plan_report.specs.Report.{word_text, entry_of};
ghost use Rattle.plan_report.specs.Laws.{IsSmallLine, AreSmall};

use pd_model::Memory;
use race_outcome::{Line, LineEnd};
use report_lines::push_number;

/// The word for how a horizon ended.
fn word(end: &LineEnd) -> &'static str
    ensures { result.now ≡ word_text (word_of end.now) }
{
    match end {
        LineEnd::Refuted(_) => "refuted",
        LineEnd::Dropped => "dropped",
        LineEnd::Going => "open",
        LineEnd::Found => "plan",
    }
}

/// Appends the line of a horizon.
fn push_horizon(line: &Line, text: &mut Vec<u8>) -> Result<(), Memory>
    ensures small { OnOk result (IsSmallLine (line_view line.now)) }
    ensures line { OnOk result (text.new.items ≡ text.old.items ++ joined (entry_line (entry_of (line_view line.now)) ∷ [])) }
{
    text.extend_from_slice(b"; horizon ")?;
    push_number(text, u64::from(line.horizon))?;
    text.extend_from_slice(b" ")?;
    text.extend_from_slice(word(&line.end).as_bytes())?;
    text.extend_from_slice(b" conflicts ")?;
    push_number(text, line.conflicts)?;
    text.extend_from_slice(b"\n")?;
    Ok(())
}

/// Appends the lines of horizons.
pub(crate) fn push_horizons(lines: &[Line], text: &mut Vec<u8>) -> Result<(), Memory>
    ensures small { OnOk result (AreSmall (map line_view lines.now)) }
    ensures lines { OnOk result (text.new.items ≡ text.old.items ++ flat_map (λ l. joined (entry_line (entry_of (line_view l)) ∷ [])) lines.now) }
{
    for line in lines {
        push_horizon(line, text)?;
    }
    Ok(())
}

/// The conflicts that lines sum to.
pub(crate) fn conflicts_of(lines: &[Line]) -> u64
    requires { conflicts_in (map line_view lines.now) < 2 ^ 64 }
    ensures { result ≡ conflicts_in (map line_view lines.now) }
{
    let mut sum = 0;
    for line in lines {
        sum += line.conflicts;
    }
    sum
}
