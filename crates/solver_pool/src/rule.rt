// The rule of the ring, and what each kind of step tells the pass that makes it.
use crate::{Job, PassView, Resume};
use crossbeam_queue::protocol::{Join, Lesson, Outcome, Protocol, Split};

/// The rule under which the ring's queue stands.
pub struct RingRule;

impl<R: Resume> Protocol<Job<R>, PassView<R>> for RingRule {
    ghost use Rattle.solver_pool.specs.own.PassView.{owner_view};
    ghost use Rattle.solver_pool.specs.own.Rule.{RuleHolds};

    ghost holds = { RuleHolds R.Resume };

    ghost first = { owner_view };
}

/// The owner puts a job with which the ring is opened.
pub(crate) struct Opening;

impl<R: Resume> Outcome<Job<R>, PassView<R>> for Opening {
    ghost use Rattle.solver_pool.specs.own.Steps.{Opens};

    ghost then = { Opens R.Resume };
}

impl<R: Resume> Lesson<Job<R>, PassView<R>> for Opening {
    ghost use Rattle.std.specs.Prelude.{◌<◌, length};

    ghost fact = { λ v items. length items < 16 };
}

/// A pass returns a job that it took.
pub(crate) struct Return;

impl<R: Resume> Outcome<Job<R>, PassView<R>> for Return {
    ghost use Rattle.solver_pool.specs.own.Steps.{Puts};

    ghost then = { Puts R.Resume };
}

impl<R: Resume> Lesson<Job<R>, PassView<R>> for Return {
    ghost use Rattle.std.specs.Prelude.{◌<◌, length};

    ghost fact = { λ v items. length items < 16 };
}

/// A pass takes a job, or finds none.
pub(crate) struct Take;

impl<R: Resume> Outcome<Job<R>, PassView<R>> for Take {
    ghost use Rattle.solver_pool.specs.own.Steps.{Takes};

    ghost then = { Takes R.Resume };
}

impl<R: Resume> Lesson<Job<R>, PassView<R>> for Take {
    ghost use Rattle.solver_pool.specs.own.Steps.{Settles};

    ghost fact = { Settles R.Resume };
}

/// The owner gives a pass out.
pub(crate) struct GiveOut;

impl<R> Split<PassView<R>> for GiveOut {
    ghost use Rattle.solver_pool.specs.own.PassView.{with_pass_out, worker_view};

    ghost left = { with_pass_out };

    ghost right = { λ v. worker_view v.book };
}

/// The owner takes a pass in.
pub(crate) struct TakeIn;

impl<R> Join<PassView<R>> for TakeIn {
    ghost use Rattle.solver_pool.specs.own.PassView.{with_pass_in, ended_view};

    ghost both = { with_pass_in };

    ghost spent = { ended_view };
}
