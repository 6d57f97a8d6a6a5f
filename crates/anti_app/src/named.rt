ghost use Rattle.std.specs.Prelude.{◌≡◌, ◌<◌, ◌≤◌, ◌^◌, IfSome, length, position};
ghost use Rattle.std.specs.List.{position_or_len};
ghost use Rattle.std.specs.Str.{bytes_eq};

use crate::app::{HandlerDef, ServiceDef, StoreDef, SubDef};
use anti_ids::Name;

/// A thing of an application that is found by its name.
pub trait Named {
    ghost use Rattle.std.specs.Prelude.{◌≡◌, ℕ, List};

    ghost named: { Self → List ℕ };

    /// Its name.
    fn name(&self) -> &Name
        ensures { result.now ≡ named self.now };
}

// A region is its name.
impl Named for Name {
    ghost named = { λ name. name };

    fn name(&self) -> &Name {
        self
    }
}

impl Named for StoreDef {
    ghost named = { λ store. store.name };

    fn name(&self) -> &Name {
        &self.name
    }
}

impl Named for ServiceDef {
    ghost named = { λ service. service.name };

    fn name(&self) -> &Name {
        &self.name
    }
}

impl Named for HandlerDef {
    ghost named = { λ handler. handler.name };

    fn name(&self) -> &Name {
        &self.name
    }
}

impl Named for SubDef {
    ghost named = { λ sub. sub.name };

    fn name(&self) -> &Name {
        &self.name
    }
}

/// The place of the first of some things with a name, counted from 0; how many they are, where none has it.
pub fn place_of<T: Named>(things: &[T], name: &[u8]) -> usize
    ensures place { result ≡ position_or_len (λ thing. bytes_eq (T.named thing) name.now) things.now }
    ensures within { result ≤ length things.now }
{
    for (place, thing) in things.iter().enumerate() {
        if thing.name().bytes() == name {
            return place;
        }
    }
    things.len()
}

/// That place as a number, where there are few things.
pub fn number_in<T: Named>(things: &[T], name: &str) -> u32
    requires { length things.now < 2 ^ 32 }
    ensures { result ≡ position_or_len (λ thing. bytes_eq (T.named thing) name.now) things.now }
{
    place_of(things, name.as_bytes()) as u32
}

/// The number of the first of few things with a name, where one has it.
pub fn found_in<T: Named>(things: &[T], name: &[u8]) -> Option<u32>
    requires { length things.now < 2 ^ 32 }
    ensures number { result ≡ position (λ thing. bytes_eq (T.named thing) name.now) things.now }
    ensures within { IfSome result (λ number. number < length things.now) }
{
    let place = place_of(things, name);
    if place < things.len() {
        Some(place as u32)
    } else {
        None
    }
}
