ghost use Rattle.std.specs.Prelude.{◌≡◌, [], ◌∷◌, ◌++◌, ◌+◌, ◌<◌, ◌≤◌, length, take, drop, reverse, OnOk, OnErr};
ghost use Rattle.std.specs.List.Sorted.{IsPermutation, IsSorted};

use crate::{Items, Memory};
use std::alloc::Global;
use std::marker::Model;

/// A list, and a number of items that it takes without taking memory: room is reserved where
/// want of memory can be answered, and filled where it can't.
#[derive(Drop)]
pub struct Roomy<T> {
    items: Vec<T>,
    spare: usize,
}

impl<T> Model for Roomy<T> {
    ghost use Rattle.std.specs.Prelude.{◌+◌, ◌≤◌, vec_len, vec_capacity};
    ghost use Rattle.sim_base.specs.Room.{Room, room_code};

    ghost Value = { Room T };

    ghost coded = { room_code T.code };

    ghost view = { λ r. record { list = r.items.items; spare = r.spare } };

    ghost invariant = { λ r. vec_len r.items + r.spare ≤ vec_capacity r.items };
}

impl<T> Roomy<T> {
    /// The empty list, with no room. It takes no memory, and grows by this allocator.
    pub fn new(alloc: Global) -> Roomy<T>
        ensures list { result.list ≡ [] }
        ensures spare { result.spare ≡ 0 }
    {
        Roomy {
            items: Vec::new(alloc),
            spare: 0,
        }
    }

    /// How many items.
    pub fn len(&self) -> usize
        ensures { result ≡ length self.now.list }
    {
        self.items.len()
    }

    /// The items in order.
    pub fn as_slice(&self) -> &[T]
        ensures { result.now ≡ self.now.list }
    {
        self.items.as_slice()
    }

    /// The list. It takes no memory.
    pub fn into_items(self) -> Items<T>
        ensures { result ≡ self.list }
    {
        let Roomy { items, spare: _ } = self;
        Items::of(items)
    }

    /// Makes room for so many items more, at least. Err is want of memory, and changes nothing.
    pub fn reserve(&mut self, n: usize) -> Result<(), Memory>
        ensures list { self.new.list ≡ self.old.list }
        ensures room { OnOk result (n ≤ self.new.spare) }
        ensures keeps { self.old.spare ≤ self.new.spare }
        ensures refused { OnErr result (self.new ≡ self.old) }
    {
        if self.spare < n {
            self.items.reserve(n)?;
            self.spare = n;
        }
        Ok(())
    }

    /// Appends an item, for which there is room. It takes no memory.
    pub fn add(&mut self, item: T)
        requires { 0 < self.old.spare }
        ensures list { self.new.list ≡ self.old.list ++ item ∷ [] }
        ensures spare { self.new.spare + 1 ≡ self.old.spare }
    {
        self.spare -= 1;
        self.items.push_reserved(item);
    }

    /// Turns the order of the items from a place on round. It takes no memory.
    pub fn reverse_from(&mut self, at: usize)
        requires { at ≤ length self.old.list }
        ensures list { self.new.list ≡ take at self.old.list ++ reverse (drop at self.old.list) }
        ensures spare { self.new.spare ≡ self.old.spare }
    {
        self.items[at..].reverse();
    }
}

impl<T: Ord> Roomy<T> {
    /// Puts the items from a place on into ascending order. It takes no memory.
    pub fn sort_from(&mut self, at: usize)
        requires { at ≤ length self.old.list }
        ensures before { take at self.new.list ≡ take at self.old.list }
        ensures sorted { IsSorted T.cmp (drop at self.new.list) }
        ensures same { IsPermutation (drop at self.old.list) (drop at self.new.list) }
        ensures spare { self.new.spare ≡ self.old.spare }
    {
        self.items[at..].sort_unstable();
    }
}

impl<T: Drop> Roomy<T> {
    /// Lets all items go, and keeps their room. It takes no memory.
    pub fn clear(&mut self)
        ensures list { self.new.list ≡ [] }
        ensures spare { self.new.spare ≡ self.old.spare + length self.old.list }
    {
        self.spare += self.items.len();
        self.items.clear();
    }
}
