use std::collections::LinkedList;

/// What a seat knew before a join, and the numbers that were its own then.
pub struct Recall<E> {
    /// The list as far as it had seen it.
    pub seen: LinkedList<E>,
    /// Its number and those of the seats that were joined into it.
    pub numbers: LinkedList<u64>,
}

/// What is kept of a seat for proofs. No value of it is made, and it takes no memory.
pub struct View<E, F> {
    /// No join has spent it.
    pub live: bool,
    /// The seat has the turn.
    pub holds: bool,
    /// The seat found that no other was out, and was not split since.
    pub alone: bool,
    /// The list as far as the seat has seen it.
    pub seen: LinkedList<E>,
    /// What never changes of the value. A spent view has none.
    pub fixed: Option<F>,
    /// The seat's number.
    pub number: u64,
    /// The numbers of the seats that were joined into it.
    pub ended: LinkedList<u64>,
    /// The number that was drawn for a seat to come, if there is one.
    pub drawn: Option<u64>,
    /// How many seats were joined and not yet counted out.
    pub owed: u64,
    /// How many seats may still be made from it.
    pub room: u64,
    /// How often it gave the turn back.
    pub visits: u64,
    /// How often it loaded the count of seats.
    pub asked: u64,
    /// The count that was loaded last.
    pub out: u64,
    /// To what it raised marks: each mark, and the number.
    pub raised: LinkedList<(u64, u64)>,
    /// What it loaded of marks: each mark, and the number.
    pub loaded: LinkedList<(u64, u64)>,
    /// The marks that it loaded, each as often as it did.
    pub loads: LinkedList<u64>,
    /// Of a join that is not yet counted out: the seat that took the other in.
    pub host: Recall<E>,
    /// Of the same join: the seat that was taken in.
    pub guest: Recall<E>,
}
