//! A robot with a battery in rooms that stand in a circle, every fifth of which has a lamp.

ghost use Rattle.std.specs.Prelude.{◌≡◌, ℕ, ◌+◌, ◌*◌, ◌/◌, ◌≤◌, ◌<◌};

use crate::actions::{action, plain, when};
use containers::memory::Memory;
use gt_core::act::{Act, Acts};
use gt_core::eff::Eff;
use gt_core::lits::{Bits, Lits};
use gt_core::pairs::Pairs;
use gt_core::task::Task;
use std::alloc::{AllocError, Global};

/// How many rooms there are. Fact r says that the robot is in room r. Lamp k stands in room 5k; after the rooms come the
/// facts that lamp k is on, then those that it is off, then those that it was seen when it was on. The last fact is that the
/// battery is charged.
#[derive(Clone, Copy)]
struct House {
    rooms: u32,
}

impl House {
    /// How many lamps there are.
    fn lamps(self) -> u32
        requires { self.rooms ≤ 1024 }
        ensures { result ≡ self.rooms / 5 }
    {
        self.rooms / 5
    }

    /// The literal that the robot is in a room.
    fn at(self, room: u32) -> u32
        requires { room ≤ 1024 }
        ensures { result ≡ 2 * room }
    {
        2 * room
    }

    /// The literal that a lamp is on.
    fn on(self, lamp: u32) -> u32
        requires rooms { self.rooms ≤ 1024 }
        requires lamp { lamp ≤ 1024 }
        ensures { result ≡ 2 * (self.rooms + lamp) }
    {
        2 * (self.rooms + lamp)
    }

    /// The literal that a lamp is off.
    fn off(self, lamp: u32) -> u32
        requires rooms { self.rooms ≤ 1024 }
        requires lamp { lamp ≤ 1024 }
        ensures { result ≡ 2 * (self.rooms + self.rooms / 5 + lamp) }
    {
        2 * (self.rooms + self.lamps() + lamp)
    }

    /// The literal that a lamp was seen.
    fn seen(self, lamp: u32) -> u32
        requires rooms { self.rooms ≤ 1024 }
        requires lamp { lamp ≤ 1024 }
        ensures { result ≡ 2 * (self.rooms + 2 * (self.rooms / 5) + lamp) }
    {
        2 * (self.rooms + 2 * self.lamps() + lamp)
    }

    /// The literal that the battery is charged.
    fn charged(self) -> u32
        requires { self.rooms ≤ 1024 }
        ensures { result ≡ 2 * (self.rooms + 3 * (self.rooms / 5)) }
    {
        2 * (self.rooms + 3 * self.lamps())
    }

    /// How many facts there are.
    fn facts(self) -> u32
        requires { self.rooms ≤ 1024 }
        ensures { result ≡ self.rooms + 3 * (self.rooms / 5) + 1 }
    {
        self.rooms + 3 * self.lamps() + 1
    }

    /// The robot goes from one room to another, which empties the battery. Where a lamp stands, it was then seen if it is on,
    /// and was not if it is off.
    fn go(self, alloc: Global, from: u32, to: u32) -> Result<Act, AllocError>
        requires rooms { self.rooms ≤ 1024 }
        requires from { from ≤ 1024 }
        requires to { to ≤ 1024 }
    {
        let (leave, enter) = (self.at(from) + 1, self.at(to));
        let (least, greatest) = if leave < enter {
            (leave, enter)
        } else {
            (enter, leave)
        };
        let mut effects = vec![in alloc; Eff::sure(least), Eff::sure(greatest)]?;
        if to % 5 == 0 && to / 5 < self.lamps() {
            let lamp = to / 5;
            effects.push(when(alloc, &[self.on(lamp)], self.seen(lamp))?)?;
            effects.push(when(alloc, &[self.off(lamp)], self.seen(lamp) + 1)?)?;
        }
        effects.push(Eff::sure(self.charged() + 1))?;
        action(alloc, &[self.at(from), self.charged()], effects)
    }

    /// Appends the actions of a room: to the next room; from every eighth room also to the one before; and where a lamp
    /// stands, on and off.
    fn add_room(self, alloc: Global, room: u32, acts: &mut Vec<Act>) -> Result<(), AllocError>
        requires rooms { self.rooms ≤ 1024 }
        requires room { room < self.rooms }
    {
        let last = self.rooms - 1;
        acts.push(self.go(alloc, room, if room < last { room + 1 } else { 0 })?)?;
        if room % 8 == 0 {
            acts.push(self.go(alloc, room, if room > 0 { room - 1 } else { last })?)?;
        }
        if room % 5 == 0 && room / 5 < self.lamps() {
            let (here, on, off) = (self.at(room), self.on(room / 5), self.off(room / 5));
            acts.push(plain(alloc, &[here, off], &[on, off + 1])?)?;
            acts.push(plain(alloc, &[here, on], &[on + 1, off])?)?;
        }
        Ok(())
    }

    /// The actions: room after room, then that which charges the battery.
    fn actions(self, alloc: Global) -> Result<Acts, AllocError>
        requires { self.rooms ≤ 1024 }
    {
        let mut acts = Vec::new(alloc);
        for room in 0..self.rooms {
            self.add_room(alloc, room, &mut acts)?;
        }
        acts.push(plain(alloc, &[self.charged() + 1], &[self.charged()])?)?;
        Ok(Acts::of(acts))
    }

    /// The initial values: the robot is in room 0, all lamps are off and were not seen, the battery is charged.
    fn values(self, alloc: Global) -> Result<Bits, AllocError>
        requires { self.rooms ≤ 1024 }
    {
        let mut values = Vec::new(alloc);
        for fact in 0..self.facts() {
            let off = self.off(0) <= 2 * fact && 2 * fact < self.seen(0);
            values.push(fact == 0 || off || 2 * fact == self.charged())?;
        }
        Ok(Bits::of(values))
    }
}

/// The task of so many rooms, or none where these are fewer than 3 or more than 1,024: all lamps are to be seen.
pub fn rooms(alloc: Global, rooms: u32) -> Result<Option<Task>, AllocError> {
    if rooms < 3 || rooms > 1024 {
        return Ok(None);
    }
    let house = House { rooms };
    let mut goal = Vec::new(alloc);
    for lamp in 0..house.lamps() {
        goal.push(house.seen(lamp))?;
    }
    let (init, acts) = (house.values(alloc)?, house.actions(alloc)?);
    Ok(Task::try_new(house.facts(), init, Lits::of(goal), false, acts))
}

/// Adds a pair where it is one of two different facts among those that the pairs are over.
pub(crate) fn add_pair(pairs: &mut Pairs, l: u32, m: u32) -> Result<(), Memory>
    ensures { pairs.new.facts ≡ pairs.old.facts }
{
    if l / 2 != m / 2 && l / 2 < pairs.facts() && m / 2 < pairs.facts() {
        pairs.add(l, m)?;
    }
    Ok(())
}

/// Adds that each lamp of so many rooms is on or off, and not both.
pub fn add_lamp_pairs(rooms: u32, pairs: &mut Pairs) -> Result<(), Memory>
    ensures { pairs.new.facts ≡ pairs.old.facts }
{
    if rooms > 1024 {
        return Ok(());
    }
    let house = House { rooms };
    for lamp in 0..house.lamps() {
        add_pair(pairs, house.on(lamp), house.off(lamp))?;
        add_pair(pairs, house.on(lamp) + 1, house.off(lamp) + 1)?;
    }
    Ok(())
}
