ghost use Rattle.std.specs.Prelude.{◌≡◌, option_map};
ghost use Rattle.anti_app.specs.Subs.{is_number_on, number_on, position_on, sub_on};

use crate::app::{App, SubDef};

// Whether the subscription with a number in the document is on a store.
fn is_number_on(app: &App, store: u32, number: usize) -> bool
    ensures { result ≡ is_number_on app.now store number }
{
    match app.subs.as_slice().get(number) {
        Some(sub) => sub.store == store,
        None => false,
    }
}

/// The position among those of a store of the subscription with a number in the document: how many before it are on the store.
pub fn position_on(app: &App, store: u32, number: u32) -> u32
    ensures { result ≡ position_on app.now store number }
{
    let before = app.subs.as_slice().iter().take(number as usize);
    before.filter(|sub| sub.store == store).count() as u32
}

/// The number in the document of the subscription at a position among those of a store.
pub fn number_on(app: &App, store: u32, position: usize) -> Option<usize>
    ensures { result ≡ number_on app.now store position }
{
    let mut left = position;
    for number in 0..app.subs.len() {
        if is_number_on(app, store, number) {
            if left == 0 {
                return Some(number);
            }
            left -= 1;
        }
    }
    None
}

/// The subscription at a position among those of a store.
pub fn sub_on(app: &App, store: u32, position: usize) -> Option<&SubDef>
    ensures { option_map (λ sub. sub.now) result ≡ sub_on app.now store position }
{
    let number = number_on(app, store, position)?;
    app.subs.as_slice().get(number)
}
