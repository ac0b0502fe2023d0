//! Lines with numbers and counts.
ghost use Rattle.std.specs.Prelude.{◌≡◌, ◌++◌, codes, decimal, OnOk};
ghost use Rattle.plan_report.specs.Listings.{counted};

use pd_model::Memory;
use report_lines::push_number;

/// Appends the start of a numbered line.
pub(crate) fn push_line_start(number: u32, text: &mut Vec<u8>) -> Result<(), Memory>
    ensures { OnOk result (text.new.items ≡ text.old.items ++ (codes "; " ++ (decimal number ++ codes " "))) }
{
    text.extend_from_slice(b"; ")?;
    push_number(text, u64::from(number))?;
    text.extend_from_slice(b" ")?;
    Ok(())
}

/// Appends the line of a word and a count.
pub(crate) fn push_count(word: &str, count: u32, text: &mut Vec<u8>) -> Result<(), Memory>
    ensures { OnOk result (text.new.items ≡ text.old.items ++ counted word.now count) }
{
    text.extend_from_slice(b"; ")?;
    text.extend_from_slice(word.as_bytes())?;
    text.extend_from_slice(b" ")?;
    push_number(text, u64::from(count))?;
    text.extend_from_slice(b"\n")?;
    Ok(())
}
