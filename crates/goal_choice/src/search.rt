//! Of the variables of supporters, the least that has a value in a step.

ghost use Rattle.std.specs.Prelude.{◌≡◌, ◌+◌, ◌<◌, None, length};
ghost use Rattle.std.specs.Bool.{OnTrue};
ghost use Rattle.std.specs.List.{AllByRecursion};
ghost use Rattle.std.specs.List.Sorted.{IsNonDecreasing};
ghost use Rattle.goal_choice.specs.Walk.{has_value};
ghost use Rattle.goal_choice.specs.own.Search.{least_variable, lesser_variable};

use clause_base::values::Values;

/// Whether a variable has this value, or where this is `None`, has none.
pub(crate) fn has_value(values: &Values, v: u32, value: Option<bool>) -> bool
    requires { v < length values.now }
    ensures { result ≡ has_value values.now v value }
{
    match (values.get(v), value) {
        (None, None) => true,
        (Some(given), Some(asked)) => given == asked,
        (None, Some(_)) => false,
        (Some(_), None) => false,
    }
}

/// Of variables of the first step, each at most the next one, the first that has a value in the step that begins at a variable.
fn first_with(variables: &[u32], values: &Values, start: u32, value: Option<bool>) -> Option<u32>
    requires within { AllByRecursion (λ v. start + v < length values.now) variables.now }
    requires rising { IsNonDecreasing variables.now }
    ensures { result ≡ least_variable values.now value start variables.now }
{
    // For the proof: there are at most 2,147,483,647 variables.
    let _small = values.variables();
    for variable in variables {
        if has_value(values, start + *variable, value) {
            return Some(*variable);
        }
    }
    None
}

/// Of variables of the first step the least that has a value in the step that begins at a variable.
fn least_of_all(variables: &[u32], values: &Values, start: u32, value: Option<bool>) -> Option<u32>
    requires { AllByRecursion (λ v. start + v < length values.now) variables.now }
    ensures { result ≡ least_variable values.now value start variables.now }
{
    // For the proof: there are at most 2,147,483,647 variables.
    let _small = values.variables();
    let mut least = None;
    let mut i = variables.len();
    'scanning: while i > 0 {
        i -= 1;
        let variable = variables[i];
        if has_value(values, start + variable, value) {
            least = Some(lesser(variable, least));
        }
    }
    least
}

/// The lesser of two variables.
fn lesser(first: u32, other: Option<u32>) -> u32
    ensures { result ≡ lesser_variable first other }
{
    match other {
        None => first,
        Some(second) => first.min(second),
    }
}

/// Of variables of the first step the least that has a value in the step that begins at a variable. Where it is known that
/// each is at most the next one, as it mostly is, the first one that is found is the least.
pub(crate) fn least_variable(
    variables: &[u32],
    rising: bool,
    values: &Values,
    start: u32,
    value: Option<bool>,
) -> Option<u32>
    requires within { AllByRecursion (λ v. start + v < length values.now) variables.now }
    requires rising { OnTrue rising (IsNonDecreasing variables.now) }
    ensures { result ≡ least_variable values.now value start variables.now }
{
    if rising {
        first_with(variables, values, start, value)
    } else {
        least_of_all(variables, values, start, value)
    }
}
