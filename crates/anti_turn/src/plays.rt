// The kinds of step. Beside these a seat moves the value out of the slot and back into it, which changes no view.
ghost use Rattle.anti_turn.specs.inner.Views.{spent_view};
ghost use Rattle.anti_turn.specs.inner.Steps.{Tries, Frees, Raises, rest_view, split_view, joined_view, Lowers, Counts, MarksUp, LooksUp};

use crate::listed::Listed;
use crate::view::View;
use atomic_table::{Join, Play, Split};
use std::marker::PhantomData;

// The word of the turn is exchanged, if it was free.
pub struct Take<T> {
    marker: PhantomData<T>,
}

impl<T: Listed> Play<Option<T>, View<T::Entry, T::Fixed>> for Take<T> {
    ghost then = { Tries T.list T.by T.fixed T.mark };
}

// The word of the turn says that a thread waits, and the turn is taken, if it was free.
pub struct Await<T> {
    marker: PhantomData<T>,
}

impl<T: Listed> Play<Option<T>, View<T::Entry, T::Fixed>> for Await<T> {
    ghost then = { Tries T.list T.by T.fixed T.mark };
}

// The word of the turn is set free.
pub struct Free<T> {
    marker: PhantomData<T>,
}

impl<T: Listed> Play<Option<T>, View<T::Entry, T::Fixed>> for Free<T> {
    ghost then = { Frees T.list };
}

// The count of seats is raised.
pub struct Raise<T> {
    marker: PhantomData<T>,
}

impl<T: Listed> Play<Option<T>, View<T::Entry, T::Fixed>> for Raise<T> {
    ghost then = { Raises T.by };
}

// A seat is split.
pub struct Cut<T> {
    marker: PhantomData<T>,
}

impl<T: Listed> Split<View<T::Entry, T::Fixed>> for Cut<T> {
    ghost left = { rest_view };

    ghost right = { split_view };
}

// A seat is joined into another.
pub struct Merge<T> {
    marker: PhantomData<T>,
}

impl<T: Listed> Join<View<T::Entry, T::Fixed>> for Merge<T> {
    ghost both = { joined_view };

    ghost spent = { spent_view };
}

// The count of seats is lowered.
pub struct Lower<T> {
    marker: PhantomData<T>,
}

impl<T: Listed> Play<Option<T>, View<T::Entry, T::Fixed>> for Lower<T> {
    ghost then = { Lowers T.by };
}

// The count of seats is loaded.
pub struct Count<T> {
    marker: PhantomData<T>,
}

impl<T: Listed> Play<Option<T>, View<T::Entry, T::Fixed>> for Count<T> {
    ghost then = { Counts };
}

// A mark is raised.
pub struct MarkUp<T> {
    marker: PhantomData<T>,
}

impl<T: Listed> Play<Option<T>, View<T::Entry, T::Fixed>> for MarkUp<T> {
    ghost then = { MarksUp };
}

// A mark is loaded.
pub struct LookUp<T> {
    marker: PhantomData<T>,
}

impl<T: Listed> Play<Option<T>, View<T::Entry, T::Fixed>> for LookUp<T> {
    ghost then = { LooksUp T.by T.mark };
}
