//! The links between the nodes, from the head to the tail.
ghost use Rattle.std.specs.Prelude.{◌≡◌, List as Seq, [], ◌∷◌, ◌++◌};
ghost use Rattle.std.specs.Coded.{prop_coded};
ghost use denote.RawPtr.{Ptr};
ghost use Rattle.anti_flight.specs.inner.Linked.{Linked, linked, ring, IsApart, IsApart-prop, IsAt, AtNode, HasNext, HasPrev};
ghost use Rattle.anti_flight.specs.inner.Ownership.{chain_owns, chain_lent};

use crate::block::{Detached, Node, Place, Room};
use std::marker::{Model, PhantomData, Send, Sync};
use std::ptr;

/// The owner of all nodes, and of their blocks. It takes no space: who has it also has the places of its two ends. It is no `Drop`, so a
/// chain that is forgotten does not compile.
pub struct Chain<T> {
    mark: PhantomData<*mut Node<T>>,
    ghost head: { Ptr },
    ghost tail: { Ptr },
    ghost nodes: { Seq (Linked T) },
    ghost apart: { IsApart (ring head nodes tail) } by { prop_coded (IsApart-prop (ring head nodes tail)) },
}

impl<T> Model for Chain<T> {
    ghost also_owns = { λ c. chain_owns T.row c.head c.nodes c.tail };

    ghost also_shares = { λ c _ κ. chain_lent T.row c.head c.nodes c.tail κ };
}

unsafe impl<T: Send> Send for Chain<T> {}

unsafe impl<T: Sync> Sync for Chain<T> {}

impl<T> Chain<T> {
    /// Links two blocks as the ends of a chain with no node between them.
    pub(crate) fn new(head: Room<T>, tail: Room<T>) -> (Chain<T>, Place, Place)
        ensures { (result.0.head ≡ result.1.ptr) × (result.0.tail ≡ result.2.ptr) × (result.0.nodes ≡ []) }
    {
        let Room { ptr: head } = head;
        let Room { ptr: tail } = tail;
        unsafe {
            (*head).prev = ptr::null_mut();
            (*head).next = tail;
            (*tail).prev = head;
            (*tail).next = ptr::null_mut();
        }
        let head = Place {
            ptr: head as *mut u8,
        };
        let tail = Place {
            ptr: tail as *mut u8,
        };
        (Chain { mark: PhantomData }, head, tail)
    }

    /// The blocks of the two ends of a chain that has no node.
    pub(crate) fn into_ends(self, head: Place, tail: Place) -> (Room<T>, Room<T>)
        requires { (head.ptr ≡ self.head) × (tail.ptr ≡ self.tail) × (self.nodes ≡ []) }
    {
        let Chain { mark: _ } = self;
        let head = head.ptr as *mut Node<T>;
        let tail = tail.ptr as *mut Node<T>;
        (Room { ptr: head }, Room { ptr: tail })
    }

    /// Takes the node out of the chain.
    pub(crate) fn detach(&mut self, node: Place) -> Detached<T>
        requires { IsAt self.old.nodes node.ptr }
        ensures ends { (self.new.head ≡ self.old.head) × (self.new.tail ≡ self.old.tail) }
        ensures nodes { AtNode self.old.nodes node.ptr (λ xs n ys. (self.new.nodes ≡ xs ++ ys) × (result.value ≡ n.value)) }
    {
        let node = node.ptr as *mut Node<T>;
        unsafe {
            (*(*node).prev).next = (*node).next;
            (*(*node).next).prev = (*node).prev;
        }
        Detached { ptr: node }
    }

    /// Links the node in before the tail.
    pub(crate) fn attach_last(&mut self, tail: Place, node: Detached<T>) -> Place
        requires { tail.ptr ≡ self.old.tail }
        ensures ends { (self.new.head ≡ self.old.head) × (self.new.tail ≡ self.old.tail) }
        ensures nodes { self.new.nodes ≡ self.old.nodes ++ linked result.ptr node.value ∷ [] }
    {
        let tail = tail.ptr as *mut Node<T>;
        let Detached { ptr: node } = node;
        unsafe {
            (*node).next = tail;
            (*node).prev = (*tail).prev;
            (*tail).prev = node;
            (*(*node).prev).next = node;
        }
        Place {
            ptr: node as *mut u8,
        }
    }

    /// The node behind this one, where the two ends count as nodes.
    pub(crate) fn next(&self, node: Place) -> Place
        requires { (after : Ptr) × HasNext (ring self.now.head self.now.nodes self.now.tail) node.ptr after }
        ensures { (after : Ptr) → HasNext (ring self.now.head self.now.nodes self.now.tail) node.ptr after → result.ptr ≡ after }
    {
        let node = node.ptr as *mut Node<T>;
        let next = unsafe { (*node).next };
        Place {
            ptr: next as *mut u8,
        }
    }

    /// The node before this one, where the two ends count as nodes.
    pub(crate) fn prev(&self, node: Place) -> Place
        requires { (before : Ptr) × HasPrev (ring self.now.head self.now.nodes self.now.tail) node.ptr before }
        ensures { (before : Ptr) → HasPrev (ring self.now.head self.now.nodes self.now.tail) node.ptr before → result.ptr ≡ before }
    {
        let node = node.ptr as *mut Node<T>;
        let prev = unsafe { (*node).prev };
        Place {
            ptr: prev as *mut u8,
        }
    }

    /// The value of a node.
    pub(crate) fn value(&self, node: Place) -> &T
        requires { IsAt self.now.nodes node.ptr }
        ensures { AtNode self.now.nodes node.ptr (λ _ n _. result.now ≡ n.value) }
    {
        let node = node.ptr as *mut Node<T>;
        unsafe { &(*node).value }
    }
}
