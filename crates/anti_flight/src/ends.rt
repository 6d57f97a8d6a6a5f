//! A chain with its two ends. They are nodes that never hold a value, so linking and unlinking have no case for the first and the last.
ghost use Rattle.std.specs.Prelude.{◌≡◌, [], ◌∷◌, ◌++◌, IfOk, IfErr};
ghost use Rattle.anti_flight.specs.inner.Linked.{linked, IsAt, AtNode, IsFirst, IsLast};

use crate::block::{Place, allocate, deallocate};
use crate::chain::Chain;
use std::alloc::{AllocError, Global};
use std::marker::Model;

/// A chain and the places of its two ends, which contracts see as its nodes.
pub struct Ends<T> {
    chain: Chain<T>,
    head: Place,
    tail: Place,
}

impl<T> Model for Ends<T> {
    ghost use Rattle.std.specs.Prelude.{◌≡◌, List as Seq};
    ghost use Rattle.std.specs.Coded.{coded_list};
    ghost use Rattle.anti_flight.specs.inner.Linked.{Linked, linked_code};

    ghost Value = { Seq (Linked T) };

    ghost coded = { coded_list (linked_code T.code) };

    ghost view = { λ e. e.chain.nodes };

    ghost invariant = { λ e. (e.head.ptr ≡ e.chain.head) × (e.tail.ptr ≡ e.chain.tail) };
}

impl<T> Ends<T> {
    /// Two ends with no node between them.
    pub(crate) fn new(alloc: &Global) -> Result<Ends<T>, AllocError>
        ensures { IfOk result (λ e. e ≡ []) }
    {
        let head = allocate(alloc)?;
        let Ok(tail) = allocate(alloc) else {
            deallocate(alloc, head);
            return Err(AllocError);
        };
        let (chain, head, tail) = Chain::new(head, tail);
        Ok(Ends { chain, head, tail })
    }

    /// Gives the two ends back.
    pub(crate) fn free(self, alloc: &Global)
        requires { self ≡ [] }
    {
        let Ends { chain, head, tail } = self;
        let (head, tail) = chain.into_ends(head, tail);
        deallocate(alloc, head);
        deallocate(alloc, tail);
    }

    /// Links a new node in last.
    pub(crate) fn push_back(&mut self, alloc: &Global, value: T) -> Result<Place, (T, AllocError)>
        ensures ok { IfOk result (λ place. self.new ≡ self.old ++ linked place.ptr value ∷ []) }
        ensures err { IfErr result (λ e. (e.0 ≡ value) × (self.new ≡ self.old)) }
    {
        match allocate(alloc) {
            Ok(room) => Ok(self.chain.attach_last(self.tail, room.fill(value))),
            Err(error) => Err((value, error)),
        }
    }

    /// Takes a node out, and frees it.
    pub(crate) fn unlink(&mut self, alloc: &Global, place: Place) -> T
        requires { IsAt self.old place.ptr }
        ensures { AtNode self.old place.ptr (λ xs n ys. (self.new ≡ xs ++ ys) × (result ≡ n.value)) }
    {
        let (value, room) = self.chain.detach(place).take();
        deallocate(alloc, room);
        value
    }

    /// The first node, or the tail.
    pub(crate) fn first(&self) -> Place
        ensures { IsFirst self.now result.ptr }
    {
        self.chain.next(self.head)
    }

    /// The last node, or the head.
    pub(crate) fn last(&self) -> Place
        ensures { IsLast self.now result.ptr }
    {
        self.chain.prev(self.tail)
    }

    /// The node behind this one, or the tail.
    pub(crate) fn after(&self, place: Place) -> Place
        requires { IsAt self.now place.ptr }
        ensures { AtNode self.now place.ptr (λ _ _ ys. IsFirst ys result.ptr) }
    {
        self.chain.next(place)
    }

    /// The value of a node.
    pub(crate) fn value(&self, place: Place) -> &T
        requires { IsAt self.now place.ptr }
        ensures { AtNode self.now place.ptr (λ _ n _. result.now ≡ n.value) }
    {
        self.chain.value(place)
    }
}
