ghost use Rattle.std.specs.Prelude.{◌≡◌, [], ◌∷◌, ◌++◌, ◌↔◌, length, IsTrue, IfOk, OnOk, OnErr};

use crate::Memory;
use smallvec::SmallVec;
use std::alloc::Global;
use std::default::MadeWith;
use std::marker::Model;

/// A list that is short most of the time, as those of an event are: the first `N` items stand in the
/// list itself, and only more take memory. Contracts see it as plain data, as they see `Items`.
#[derive(Drop)]
pub struct Few<T, const N: usize> {
    items: SmallVec<T, N>,
}

impl<T, const N: usize> Model for Few<T, N> {
    ghost use Rattle.std.specs.Prelude.{List};
    ghost use Rattle.std.specs.Coded.{coded_list};

    ghost Value = { List T };

    ghost coded = { coded_list T.code };

    ghost view = { λ it. it.items.items };
}

impl<T, const N: usize> Few<T, N> {
    /// The items in order.
    pub fn as_slice(&self) -> &[T]
        ensures { result.now ≡ self.now }
    {
        self.items.as_slice()
    }

    /// How many items.
    pub fn len(&self) -> usize
        ensures { result ≡ length self.now }
    {
        self.items.len()
    }

    /// Whether there is none.
    pub fn is_empty(&self) -> bool
        ensures { IsTrue result ↔ (self.now ≡ []) }
    {
        self.items.as_slice().is_empty()
    }
}

impl<T: MadeWith<Global> + Drop, const N: usize> Few<T, N> {
    /// The empty list. It takes no memory, and grows by this allocator.
    pub fn new(alloc: Global) -> Few<T, N>
        ensures { result ≡ [] }
    {
        Few {
            items: SmallVec::new(alloc),
        }
    }

    /// The empty list, with room for so many items; for `N` or fewer it takes no memory. Err is want of
    /// memory.
    pub fn with_room(alloc: Global, room: usize) -> Result<Few<T, N>, Memory>
        ensures { IfOk result (λ items. items ≡ []) }
    {
        Ok(Few {
            items: SmallVec::with_capacity(alloc, room)?,
        })
    }

    /// The list of a `Vec`. It takes no memory.
    pub fn of(items: Vec<T>) -> Few<T, N>
        ensures { result ≡ items.items }
    {
        Few {
            items: SmallVec::from_vec(items),
        }
    }

    /// Appends an item. Err is want of memory, which comes past the first `N` alone: the item is let go,
    /// and the list stays as it was.
    pub fn add(&mut self, item: T) -> Result<(), Memory>
        ensures ok { OnOk result (self.new ≡ self.old ++ item ∷ []) }
        ensures err { OnErr result (self.new ≡ self.old) }
    {
        self.items.push(item).map_err(|_| Memory)
    }
}
