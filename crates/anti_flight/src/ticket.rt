//! What names an item of a list.

use crate::block::Place;

/// What a list gives for an item: by it the item is found again and taken out. The numbers of a list's tickets rise, and none is given
/// twice; a ticket of another list may have the same number.
#[derive(Clone, Copy)]
pub struct Ticket {
    pub(crate) number: u64,
    pub(crate) place: Place,
}
