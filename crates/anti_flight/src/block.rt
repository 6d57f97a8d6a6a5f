//! The block of one node, and the values that stand for who owns which part of it.
ghost use Rattle.std.specs.Prelude.{◌≡◌, ⊤};
ghost use Rattle.anti_flight.specs.inner.Ownership.{room_owns, detached_owns};

use std::alloc::{AllocError, Allocator, Global};
use std::marker::{Model, Send, Sync};
use std::mem::{align_of, size_of};

/// A node of a list. The two ends never hold a value.
pub struct Node<T> {
    pub(crate) prev: *mut Node<T>,
    pub(crate) next: *mut Node<T>,
    pub(crate) value: T,
}

/// Where a node lies. It owns nothing, and is the same for nodes of all types.
pub struct Place {
    pub(crate) ptr: *mut u8,
}

impl Clone for Place {
    ghost is_clone = { λ x y. y ≡ x };

    ghost is_infallible = { λ _. ⊤ };

    fn clone(&self) -> Result<Place, AllocError> {
        Ok(*self)
    }
}

impl Copy for Place {}

unsafe impl Send for Place {}

unsafe impl Sync for Place {}

/// A block with nothing in it, and the right to give it back. It is no `Drop`, so a block that is forgotten does not compile.
pub(crate) struct Room<T> {
    pub(crate) ptr: *mut Node<T>,
}

impl<T> Model for Room<T> {
    ghost also_owns = { λ r. room_owns T.row r.ptr };
}

/// A node with its value that is in no list.
pub(crate) struct Detached<T> {
    pub(crate) ptr: *mut Node<T>,
    ghost value: { T },
}

impl<T> Model for Detached<T> {
    ghost also_owns = { λ d. detached_owns T.row d.ptr d.value };
}

/// A block for a node.
pub(crate) fn allocate<T>(alloc: &Global) -> Result<Room<T>, AllocError> {
    match alloc.allocate(size_of::<Node<T>>(), align_of::<Node<T>>()) {
        Ok(block) => {
            let ptr = block as *mut Node<T>;
            Ok(Room { ptr })
        }
        Err(error) => Err(error),
    }
}

/// Gives a block back.
pub(crate) fn deallocate<T>(alloc: &Global, room: Room<T>) {
    let Room { ptr } = room;
    unsafe {
        alloc.deallocate(ptr as *mut u8, size_of::<Node<T>>(), align_of::<Node<T>>());
    }
}

impl<T> Room<T> {
    /// Moves the value in.
    pub(crate) fn fill(self, value: T) -> Detached<T>
        ensures { result.value ≡ value }
    {
        let Room { ptr } = self;
        unsafe {
            (&raw mut (*ptr).value).write(value);
        }
        Detached { ptr }
    }
}

impl<T> Detached<T> {
    /// Moves the value out.
    pub(crate) fn take(self) -> (T, Room<T>)
        ensures { result.0 ≡ self.value }
    {
        let Detached { ptr } = self;
        let value = unsafe { (&raw const (*ptr).value).read() };
        (value, Room { ptr })
    }
}
