//! The published order and its look-ups.
ghost use Rattle.gt_core.specs.Limits.{most_actions};

use crate::numbers::ActNumbers;
use containers::let_go;
use std::marker::Model;

/// An order of a task's actions, as its components one after the other. Actions are numbered as in the task, places
/// from 0.
pub struct Order {
    components: Vec<ActNumbers>,
    order: Vec<u32>,
    places: Vec<u32>,
    names: Vec<u32>,
}

impl Model for Order {
    ghost use Rattle.std.specs.Prelude.{ℕ, List};
    ghost use Rattle.action_order.specs.Order.{IsOrder};

    ghost Value = { List (List ℕ) };

    ghost view = { λ o. o.components.items };

    ghost invariant = { λ o. IsOrder o.components.items o.order.items o.places.items o.names.items };
}

/// All parts are let go in one call, so that a proof has one step for it and not one for each part.
impl Drop for Order {
    fn drop(self) {
        let_go!(self: Order { components, order, places, names });
    }
}

impl Order {
    ghost use Rattle.std.specs.Prelude.{◌≡◌, ℕ, ◌<◌, ◌≤◌, length, true, slice_get, Some};
    ghost use Rattle.gt_core.specs.Literal.{is_in};
    ghost use Rattle.gt_core.specs.Published.{order_of};
    ghost use Rattle.action_order.specs.Order.{name_in, IsOrder};

    /// The order of these components, with what is looked up in it.
    pub(crate) fn of(
        components: Vec<ActNumbers>,
        order: Vec<u32>,
        places: Vec<u32>,
        names: Vec<u32>,
    ) -> Order
        requires { IsOrder components.items order.items places.items names.items }
        ensures { result ≡ components.items }
    {
        Order {
            components,
            order,
            places,
            names,
        }
    }

    /// The place of an action.
    pub fn place(&self, a: u32) -> u32
        requires { is_in (order_of self.now) a ≡ true }
        ensures { slice_get (order_of self.now) result ≡ Some a }
    {
        self.places[a as usize]
    }

    /// The action at a place.
    pub fn at(&self, place: u32) -> u32
        requires { place < length (order_of self.now) }
        ensures at { slice_get (order_of self.now) place ≡ Some result }
        ensures among { is_in (order_of self.now) result ≡ true }
        ensures alone { (p : ℕ) → slice_get (order_of self.now) p ≡ Some result → p ≡ place }
    {
        self.order[place as usize]
    }

    /// The least action of the component in which an action stands.
    pub fn component(&self, a: u32) -> u32
        requires { is_in (order_of self.now) a ≡ true }
        ensures { result ≡ name_in self.now a }
    {
        self.names[a as usize]
    }

    /// How many actions there are.
    pub fn actions(&self) -> u32
        ensures { result ≡ length (order_of self.now) }
    {
        self.order.len() as u32
    }

    /// How many components there are.
    pub fn components(&self) -> u32
        ensures { result ≡ length self.now }
    {
        self.components.len() as u32
    }

    /// The components in their order, each with its actions rising.
    pub fn groups(&self) -> &[ActNumbers]
        ensures groups { result.now ≡ self.now }
        ensures short { length (order_of self.now) ≤ most_actions }
    {
        self.components.as_slice()
    }
}
