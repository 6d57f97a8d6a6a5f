ghost use Rattle.std.specs.Prelude.{◌≡◌, ◌+◌, ◌<◌, ℕ, IfNone, IfOk, IfSome, IsPermutation, OnOk, None, Some, ◌∷◌, length, slice_get};
ghost use Rattle.std.specs.List.{Contains};
ghost use Rattle.anti_work.specs.inner.Shipping.{HasNoted, HasNotedAt, HaveNoted, FirstHaveNoted, first_part};

use crate::worker::Route;
use anti_ids::NoMemory;
use anti_kind::Call;

// The region and the version whose first part a call ships, if it ships one.
pub(crate) fn first_part(call: &Call) -> Option<(u32, u64)>
    ensures { result ≡ first_part call.now }
{
    match *call {
        Call::Ship {
            region,
            version,
            part,
        } => {
            if part == 1 {
                Some((region, version))
            } else {
                None
            }
        }
        _ => None,
    }
}

// Where a version stands among some.
fn place_of(versions: &[u64], version: u64) -> Option<usize>
    ensures some { IfSome result (λ at. slice_get versions.now at ≡ Some version) }
    ensures none { IfNone result (Contains versions.now version → ⊥) }
{
    for at in 0..versions.len() {
        if versions[at] == version {
            return Some(at);
        }
    }
    None
}

// Takes out the version at a place.
fn take_out(versions: &mut Vec<u64>, at: usize)
    requires { at < length versions.old.items }
    ensures rest { (version : ℕ) → slice_get versions.old.items at ≡ Some version
        → IsPermutation versions.old.items (version ∷ versions.new.items) }
    ensures shorter { length versions.new.items < length versions.old.items }
{
    versions.swap_remove(at);
}

// The version behind another. No store has so many that there is none.
fn behind(version: u64) -> Result<u64, NoMemory>
    ensures { IfOk result (λ next. next ≡ version + 1) }
{
    match version.checked_add(1) {
        Some(next) => Ok(next),
        None => Err(NoMemory),
    }
}

impl Route {
    // Notes that the first part of a version was shipped.
    #[tactic(auto, using(crate::proofs::Noted::noted_low))]
    fn note(&mut self, version: u64) -> Result<(), NoMemory>
        ensures { OnOk result (HasNoted version self.old self.new) }
    {
        if version < self.next {
            return Ok(());
        }
        if self.next < version {
            return self.put_ahead(version);
        }
        self.go_up(version)
    }

    // Puts a version above the next one among those ahead, where it does not stand there.
    fn put_ahead(&mut self, version: u64) -> Result<(), NoMemory>
        requires { self.old.next < version }
        ensures { OnOk result (HasNoted version self.old self.new) }
    {
        match place_of(self.ahead.as_slice(), version) {
            Some(_) => Ok(()),
            None => {
                self.ahead.reserve(1)?;
                self.ahead.push_reserved(version);
                Ok(())
            }
        }
    }

    // Goes past the first version that was not shipped, which now was, and past those ahead that come right behind it.
    fn go_up(&mut self, version: u64) -> Result<(), NoMemory>
        requires { version ≡ self.old.next }
        ensures { OnOk result (HasNoted version self.old self.new) }
    {
        self.next = behind(version)?;
        while let Some(at) = place_of(self.ahead.as_slice(), self.next) {
            take_out(&mut self.ahead, at);
            self.next = behind(self.next)?;
        }
        Ok(())
    }

    // Notes a first part that was shipped from a store to a region, where the route goes so.
    #[tactic(auto, using(crate::proofs::Noted::noted_there, crate::proofs::Noted::noted_from_other, crate::proofs::Noted::noted_to_other))]
    fn note_at(&mut self, store: u32, region: u32, version: u64) -> Result<(), NoMemory>
        ensures { OnOk result (HasNotedAt store region version self.old self.new) }
    {
        if self.store != store {
            return Ok(());
        }
        if self.region != region {
            return Ok(());
        }
        self.note(version)
    }
}

// Notes a first part that was shipped from a store to a region.
fn note_in(routes: &mut Vec<Route>, store: u32, region: u32, version: u64) -> Result<(), NoMemory>
    ensures { OnOk result (FirstHaveNoted (length routes.old.items) store region version
        routes.old.items routes.new.items) }
{
    for at in 0..routes.len() {
        let route = &mut routes[at];
        route.note_at(store, region, version)?;
    }
    Ok(())
}

// Notes what was shipped from a store.
pub(crate) fn note(
    routes: &mut Vec<Route>,
    store: u32,
    first: Option<(u32, u64)>,
) -> Result<(), NoMemory>
    ensures { OnOk result (HaveNoted store first routes.old.items routes.new.items) }
{
    match first {
        Some((region, version)) => note_in(routes, store, region, version),
        None => Ok(()),
    }
}
