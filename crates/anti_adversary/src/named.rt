ghost use Rattle.std.specs.Prelude.{◌≡◌, ◌+◌, ◌&&◌, length, nat_lt};
ghost use Rattle.anti_app.specs.Sound.{is_countable, is_part, is_shipment, is_sound_choice};

use anti_app::{App, Choice};
use anti_ids::MOST_COUNTED;

// Whether a number is one of a choice.
fn is_countable(number: u64) -> bool
    ensures { result ≡ is_countable number }
{
    1 <= number && number <= u64::from(MOST_COUNTED)
}

fn is_part(part: Option<u32>) -> bool
    ensures { result ≡ is_part part }
{
    match part {
        None => true,
        Some(part) => is_countable(u64::from(part)),
    }
}

// Whether a store and a region are there, and a version and a part are numbers of a choice.
fn is_shipment(app: &App, store: u32, region: u32, version: u64, part: Option<u32>) -> bool
    ensures { result ≡
        is_shipment (length app.now.regions.items) (length app.now.stores.items) store region version part }
{
    (store as usize) < app.stores.len()
        && (region as usize) < app.regions.len()
        && is_countable(version)
        && is_part(part)
}

// Whether a thing is one of so many, and a number is one of a choice.
fn is_numbered(things: usize, thing: u32, number: u64) -> bool
    ensures { result ≡ (nat_lt thing things && is_countable number) }
{
    (thing as usize) < things && is_countable(number)
}

// Whether an object is there: a store, or the inbox of a service.
fn is_object(app: &App, object: u32) -> bool
    ensures { result ≡ nat_lt object (length app.now.stores.items + length app.now.services.items) }
{
    let object = object as usize;
    let stores = app.stores.len();
    if object < stores {
        return true;
    }
    object - stores < app.services.len()
}

// Whether an object is there, and a place is one of a choice.
fn is_birth(app: &App, object: u32, place: u32) -> bool
    ensures { result ≡ (nat_lt object (length app.now.stores.items + length app.now.services.items) && is_countable place) }
{
    is_object(app, object) && is_countable(u64::from(place))
}

/// Whether each number of a choice is in its range, and what it names is there.
pub(crate) fn names_what_is_there(app: &App, choice: &Choice) -> bool
    ensures { result ≡ is_sound_choice app.now choice.now }
{
    match *choice {
        Choice::Take { service, nth } => {
            is_numbered(app.services.len(), service, u64::from(nth))
        }
        Choice::Repost { service, number } => {
            is_numbered(app.services.len(), service, u64::from(number))
        }
        Choice::Pull { sub } => (sub as usize) < app.subs.len(),
        Choice::Repull { sub, version } => is_numbered(app.subs.len(), sub, version),
        Choice::Ship {
            store,
            region,
            version,
            part,
        } => is_shipment(app, store, region, version, part),
        Choice::Again {
            store,
            region,
            version,
            part,
        } => is_shipment(app, store, region, version, part),
        Choice::Go { object, place } => is_birth(app, object, place),
        Choice::Finish => true,
    }
}
