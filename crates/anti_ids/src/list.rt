ghost use Rattle.std.specs.Prelude.{◌≡◌, ◌+◌, ◌<◌, ◌≤◌, [], ◌∷◌, ◌++◌, length, slice_get, slice_set, ◌==◌, OnOk, OnErr, IsOk, IfOk, IfErr, IfNone, IfSome};
ghost use Rattle.anti_ids.specs.List.{empty, plain};
ghost use Rattle.anti_ids.specs.ListCalls.{pushed, reserved, extended};

use crate::copies::Copies;
use crate::memory::NoMemory;
use std::alloc::Global;
use std::marker::Model;

/// A growing list whose room is part of its value: how many items can be put into it without memory is a number that only
/// the calls made on it decide, so two lists made by the same calls are equal.
#[derive(Drop)]
pub struct List<T> {
    items: Vec<T>,
    spare: usize,
}

impl<T> Model for List<T> {
    ghost use Rattle.std.specs.Prelude.{◌+◌, ◌≤◌, vec_len, vec_capacity};
    ghost use Rattle.anti_ids.specs.List.{Listed};
    ghost use Rattle.anti_ids.specs.ListCalls.{list_code};

    ghost Value = { Listed T };

    ghost coded = { list_code T.code };

    ghost view = { λ l. record { items = l.items.items; spare = l.spare } };

    ghost invariant = { λ l. vec_len l.items + l.spare ≤ vec_capacity l.items };
}

impl<T> List<T> {
    /// The empty list. It takes no memory.
    pub fn new(alloc: Global) -> Self
        ensures { result ≡ empty }
    {
        List {
            items: Vec::new(alloc),
            spare: 0,
        }
    }

    /// Adds the item at the end. Where the list has room it is not refused, and takes no memory.
    pub fn push(&mut self, item: T) -> Result<(), (T, NoMemory)>
        ensures ok { OnOk result (self.new ≡ pushed self.old item) }
        ensures err { OnErr result (self.new ≡ self.old) }
        ensures given_back { IfErr result (λ e. e.0 ≡ item) }
        ensures room { 0 < self.old.spare → IsOk result }
    {
        match self.items.push(item) {
            Ok(()) => {
                self.spare = self.spare.saturating_sub(1);
                Ok(())
            }
            Err(failed) => Err((failed.value, NoMemory)),
        }
    }

    /// Adds the item at the end of a list that has room. It takes no memory.
    pub fn put(&mut self, item: T)
        requires { 0 < self.old.spare }
        ensures { self.new ≡ pushed self.old item }
    {
        match self.items.push(item) {
            Ok(()) => {}
            Err(_) => unreachable!(), // it has room
        }
        self.spare = self.spare.saturating_sub(1);
    }

    /// Takes the last item away and gives it; `None` where the list is empty.
    pub fn pop(&mut self) -> Option<T>
        ensures none { IfNone result (self.old.items ≡ []) }
        ensures unchanged { IfNone result (self.new ≡ self.old) }
        ensures some { IfSome result (λ item. self.old.items ≡ self.new.items ++ item ∷ []) }
        ensures spare { self.new.spare ≡ self.old.spare }
    {
        self.items.pop()
    }

    /// The number of items.
    pub fn len(&self) -> usize
        ensures { result ≡ length self.now.items }
    {
        self.items.len()
    }

    /// Whether there is no item.
    pub fn is_empty(&self) -> bool
        ensures { result ≡ (length self.now.items == 0) }
    {
        self.items.is_empty()
    }

    /// The item at an index, counted from 0.
    pub fn at(&self, index: usize) -> &T
        requires { index < length self.now.items }
        ensures { slice_get self.now.items index ≡ Some result.now }
    {
        &self.items[index]
    }

    /// What further memory is of.
    pub fn allocator(&self) -> Global {
        *self.items.allocator()
    }

    /// The items.
    pub fn as_slice(&self) -> &[T]
        ensures { result.now ≡ self.now.items }
    {
        self.items.as_slice()
    }

    // How many items can be put into the list without memory.
    pub(crate) fn spare(&self) -> usize
        ensures { result ≡ self.now.spare }
    {
        self.spare
    }

    /// Makes room for at least `more` items. The items stay. Where the room is there it is not refused.
    pub fn reserve(&mut self, more: u32) -> Result<(), NoMemory>
        ensures ok { OnOk result (self.new ≡ reserved self.old more) }
        ensures err { OnErr result (self.new ≡ self.old) }
        ensures room { more ≤ self.old.spare → IsOk result }
    {
        let more = more as usize;
        if self.items.reserve(more).is_err() {
            return Err(NoMemory);
        }
        self.spare = self.spare.max(more);
        Ok(())
    }
}

impl<T: Drop> List<T> {
    /// Puts the item in place of the one at an index, counted from 0. It takes no memory.
    pub fn set(&mut self, index: usize, item: T)
        requires { index < length self.old.items }
        ensures items { self.new.items ≡ slice_set self.old.items index item }
        ensures spare { self.new.spare ≡ self.old.spare }
    {
        self.items[index] = item;
    }

    /// An empty list with room for the items and the room of another.
    pub fn with_room_of(alloc: Global, other: &List<T>) -> Result<List<T>, NoMemory>
        ensures items { IfOk result (λ l. l.items ≡ []) }
        ensures spare { IfOk result (λ l. l.spare ≡ length other.now.items + other.now.spare) }
    {
        let mut items = Vec::new(alloc);
        let room = other.items.len() + other.spare;
        if items.reserve(room).is_err() {
            return Err(NoMemory);
        }
        Ok(List { items, spare: room })
    }
}

impl<T> From<Vec<T>> for List<T> {
    ghost from_gives = { λ items list. list ≡ plain items.items };

    fn from(items: Vec<T>) -> List<T> {
        List { items, spare: 0 }
    }
}

impl<T: Copies> List<T> {
    // The items and the room of a list, made anew.
    fn copied(list: &List<T>, alloc: Global) -> Result<List<T>, NoMemory>
        ensures { IfOk result (λ l. l ≡ list.now) }
    {
        let items = T::copy_all(list.as_slice(), list.spare, alloc)?;
        Ok(List {
            items,
            spare: list.spare,
        })
    }
}

impl<T: Copies> Copies for List<T> {
    fn copy(&self, alloc: Global) -> Result<List<T>, NoMemory> {
        List::copied(self, alloc)
    }
}

impl List<u8> {
    /// The bytes.
    pub fn bytes(&self) -> &[u8]
        ensures { result.now ≡ self.now.items }
    {
        self.items.as_slice()
    }

    /// Adds the bytes at the end, all of them or none.
    pub fn append(&mut self, bytes: &[u8]) -> Result<(), NoMemory>
        ensures ok { OnOk result (self.new ≡ extended self.old bytes.now (length bytes.now)) }
        ensures err { OnErr result (self.new ≡ self.old) }
        ensures room { length bytes.now ≤ self.old.spare → IsOk result }
    {
        if self.items.extend_from_slice(bytes).is_err() {
            return Err(NoMemory);
        }
        self.spare = self.spare.saturating_sub(bytes.len());
        Ok(())
    }
}
