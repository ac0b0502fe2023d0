//! Of which step or time a literal is.
ghost use Rattle.cdcl_tables.specs.own.Lists.{IsShape};
ghost use Rattle.cdcl_tables.specs.Origin.{IsOrigin};

use crate::shape::Shape;

/// Of which step or time a literal is, and its code there.
#[derive(Clone, Copy)]
pub enum Origin {
    /// A literal of a variable of the step with a number.
    Step(u32, u32),
    /// A literal of a fact at a time.
    Time(u32, u32),
    /// A literal of neither.
    Other,
}

/// Of which step or time a literal is.
#[inline]
pub fn origin_of(shape: &Shape, code: u32) -> Origin
    requires { IsShape shape.now }
    ensures { IsOrigin shape.now code result }
{
    if code < shape.facts_begin {
        let of_step = shape.step_codes.parts(code);
        return Origin::Step(of_step.quotient, of_step.rest);
    }
    if code >= shape.facts_end {
        return Origin::Other;
    }
    let of_time = shape.time_codes.parts(code - shape.facts_begin);
    Origin::Time(of_time.quotient, of_time.rest)
}
