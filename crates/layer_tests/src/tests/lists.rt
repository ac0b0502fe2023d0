// Items, and lists, that go in and come back.
use super::holding::{holds, is};
use containers::{FlatLists, ListOf};
use std::alloc::Global;
use std::process::Abort;

/// Items are these.
fn are(rt: &impl Abort, items: &[u32], wanted: &[u32]) {
    holds(rt, items == wanted, "items");
}

/// An item goes in.
fn push(rt: &impl Abort, list: &mut ListOf<u32>, item: u32) {
    list.push(item).expect(rt, "memory");
}

/// Two items go into a list, and the last one comes out and goes in again.
fn go_in(rt: &impl Abort, list: &mut ListOf<u32>) {
    list.reserve(1).expect(rt, "memory");
    push(rt, list, 7);
    push(rt, list, 9);
    are(rt, list.as_slice(), &[7, 9]);
    holds(rt, is(list.pop(), 9), "the last item");
    push(rt, list, 9);
}

/// The items of a list come back as a vector, and their copy has them.
fn come_back(rt: &impl Abort, alloc: Global, list: ListOf<u32>) {
    let mut other = ListOf::of(list.into_vec());
    let copy = ListOf::copied_from(alloc, other.as_slice()).expect(rt, "memory");
    are(rt, copy.as_slice(), &[7, 9]);
    other.clear();
    holds(rt, other.pop().is_none(), "no item");
}

#[test]
fn items_go_in_and_come_back(rt: HostRuntime) {
    let mut list = ListOf::<u32>::new(rt.alloc());
    go_in(&rt, &mut list);
    come_back(&rt, rt.alloc(), list);
}

/// Two lists go in.
fn both_go_in(rt: &impl Abort, lists: &mut FlatLists<u32>) {
    lists.push(&[7, 9]).expect(rt, "memory");
    lists.reserve(1, 1).expect(rt, "memory");
    lists.push_joined(&[8], &[6, 5]).expect(rt, "memory");
}

/// The two lists are there.
fn are_both(rt: &impl Abort, same: &FlatLists<u32>) {
    assert!(rt; same.len() == 2);
    are(rt, same.at(0), &[7, 9]);
    are(rt, same.at(1), &[8, 6, 5]);
}

#[test]
fn lists_go_in_and_come_back(rt: HostRuntime) {
    let mut lists = FlatLists::<u32>::with_room(rt.alloc(), 1, 2).expect(&rt, "memory");
    both_go_in(&rt, &mut lists);
    are_both(&rt, &lists.copy(rt.alloc()).expect(&rt, "memory"));
    let none = FlatLists::<u32>::new(rt.alloc());
    holds(&rt, none.len() == 0, "no list");
}
