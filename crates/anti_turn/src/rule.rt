use crate::listed::Listed;
use crate::view::View;
use atomic_table::TableRule;
use std::marker::PhantomData;
use std::snapshot::Snapshot;

// What is true between any two steps. The rule knows the value that the turn was made with.
pub struct Law<T> {
    marker: PhantomData<T>,
}

impl<T: Listed> TableRule<Option<T>, View<T::Entry, T::Fixed>, Snapshot<T>> for Law<T> {
    ghost use Rattle.anti_turn.specs.inner.Rules.{IsKept};
    ghost use Rattle.anti_turn.specs.inner.Views.{first_view};

    ghost holds = { λ key. IsKept T.list T.by T.fixed T.mark (T.fixed key.value) };

    ghost first = { λ key. first_view (T.fixed key.value) };
}
