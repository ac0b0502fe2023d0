// A future of which the polls are counted.
use futures::Future;
use futures::task::{Context, Poll};
use std::sync::atomic::{AtomicU64, Ordering};

/// A future, and where its polls are counted.
#[derive(Drop)]
pub(crate) struct Counted<'a, T> {
    pub(crate) future: T,
    pub(crate) polls: &'a AtomicU64,
}

impl<'a, T: Future> Future for Counted<'a, T> {
    type Output = T::Output;

    ghost can_poll = { λ c. T.can_poll c.future };

    ghost needs = { λ c. T.needs c.future };

    ghost gives = { λ c. T.gives c.future };

    fn poll(&mut self, cx: &mut Context<'_>) -> Poll<T::Output> {
        self.polls.fetch_add(1, Ordering::SeqCst);
        self.future.poll(cx)
    }
}
