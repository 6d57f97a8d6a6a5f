ghost use Rattle.std.specs.Prelude.{◌≡◌, ◌+◌, ◌++◌, List, [], ◌∷◌, cond, true, false, Some, IfOk, OnOk, IsTrue, option_map, slice_get, unwrap_or};
ghost use Rattle.anti_kind.specs.declared.entry.Entry.{Entry};
ghost use Rattle.anti_app.specs.declared.app.App.{App};
ghost use Rattle.anti_app.specs.Sound.{is_sound};
ghost use Rattle.anti_trace.specs.Legal.{IsLegalTrace};
ghost use Rattle.anti_past.specs.inner.Came.{AllCameBefore, Follows, IsKnown, TellsLoss, brought_at, came_ids, holds, ids_known, most_at};
ghost use Rattle.anti_past.specs.inner.Keys.{same_key};
ghost use Rattle.anti_past.specs.inner.Walking.{IsHanded};
ghost use Rattle.anti_past.specs.declared.span_keys.SpanKey.{SpanKey};

use crate::calls::most_of;
use crate::holds::{holds_all, holds_since};
use crate::span_keys::{SpanKey, key_of};
use anti_app::App;
use anti_ids::{Copies, Lineage, NoMemory};
use anti_kind::Entry;
use anti_trace::Trace;
use std::alloc::Global;
use std::collections::BTreeMap;

/// What came to a span so far: all that its process carried into the last entry at which it was to carry all, and what this entry and the
/// later ones bring, which are given by their indices. Before the first such entry nothing is known to be carried.
#[derive(Drop)]
pub struct Came {
    pub(crate) carried: Lineage,
    pub(crate) since: Vec<u32>,
}

/// What came to the spans of a trace.
pub struct AllCame {
    pub(crate) spans: BTreeMap<SpanKey, Came>,
}

// By hand, so that no caller sees the fields.
impl Drop for AllCame {
    fn drop(self) {
        let AllCame { spans } = self;
        drop(spans);
    }
}

// What one entry brings, behind what was carried into it.
fn came_since(alloc: Global, carried: Lineage, index: u32) -> Result<Came, NoMemory>
    ensures carried { IfOk result (λ came. came.carried ≡ carried) }
    ensures since { IfOk result (λ came. came.since.items ≡ index ∷ []) }
{
    let mut since = Vec::new(alloc);
    match since.push(index) {
        Ok(()) => Ok(Came { carried, since }),
        Err(_) => Err(NoMemory),
    }
}

// How many ids the entry at an index brings at most, where that is known without a look at them.
fn most_at(trace: &Trace, index: u32) -> Option<u32>
    ensures { result ≡ most_at trace.now index }
{
    if index < trace.len() {
        let entry = trace.at(index);
        return most_of(&entry.call, &entry.reply);
    }
    None
}

impl Came {
    // Whether a lineage has as many ids as came, or more. Where each of its ids came, all that came are in it then. Mostly that spares a
    // look at the ids.
    fn is_filled(&self, trace: &Trace, lineage: &Lineage) -> bool
        ensures { (app : App) → IsTrue result → AllCameBefore app trace.now (Some lineage.now) self.now
            → holds lineage.now (came_ids app trace.now self.now) ≡ true }
    {
        // it tells that the ids ascend, so each stands there once
        let _ascending = lineage.iter();
        match self.since.as_slice() {
            [index] => match most_at(trace, *index) {
                Some(most) => self.carried.len() + most <= lineage.len(),
                None => false,
            },
            _ => false,
        }
    }

    // Whether all that came is in a lineage of which each id came.
    fn is_in(
        &self,
        alloc: Global,
        app: &App,
        trace: &Trace,
        lineage: &Lineage,
    ) -> Result<bool, NoMemory>
        requires { IsTrue (is_sound app.now) }
        ensures { AllCameBefore app.now trace.now (Some lineage.now) self.now
            → IfOk result (λ answer. answer ≡ holds lineage.now (came_ids app.now trace.now self.now)) }
    {
        if self.is_filled(trace, lineage) {
            return Ok(true);
        }
        if !holds_all(lineage, &self.carried) {
            return Ok(false);
        }
        holds_since(alloc, app, lineage, trace, self.since.as_slice())
    }

    // Notes that a lineage is carried into an entry that is given by its index.
    fn carry(&mut self, alloc: Global, lineage: &Lineage, index: u32) -> Result<(), NoMemory>
        ensures carried { OnOk result (self.new.carried ≡ lineage.now) }
        ensures since { OnOk result (self.new.since.items ≡ index ∷ []) }
    {
        self.carried = lineage.copy(alloc)?;
        self.since.clear();
        match self.since.push(index) {
            Ok(()) => Ok(()),
            Err(_) => Err(NoMemory),
        }
    }

    // Follows an entry of the span that is given by its index, and tells whether something that came is not handed there.
    fn follow(
        &mut self,
        alloc: Global,
        app: &App,
        trace: &Trace,
        index: u32,
        handed: Option<&Lineage>,
    ) -> Result<bool, NoMemory>
        requires { IsTrue (is_sound app.now) }
        ensures { AllCameBefore app.now trace.now (option_map (λ ids. ids.now) handed.entry) self.old
            → IfOk result (Follows app.now trace.now index (option_map (λ ids. ids.now) handed.entry) self.old self.new) }
    {
        let Some(lineage) = handed else {
            return match self.since.push(index) {
                Ok(()) => Ok(false),
                Err(_) => Err(NoMemory),
            };
        };
        if !self.is_in(alloc, app, trace, lineage)? {
            return Ok(true);
        }
        self.carry(alloc, lineage, index)?;
        Ok(false)
    }
}

impl AllCame {
    /// Nothing came to any span.
    pub fn new(alloc: Global) -> AllCame
        ensures { (app : App) (trace : List Entry) (q : SpanKey) → ids_known app trace result q ≡ [] }
    {
        AllCame {
            spans: BTreeMap::new(alloc),
        }
    }

    // Sets what came to a span: what its process carries into an entry that is given by its index, and what this brings.
    fn set(
        &mut self,
        alloc: Global,
        key: SpanKey,
        carried: Lineage,
        index: u32,
    ) -> Result<(), NoMemory>
        ensures { (app : App) (trace : List Entry) (q : SpanKey)
            → OnOk result (ids_known app trace self.new q
            ≡ cond (same_key key q) (carried ++ (brought_at app trace index ++ [])) (ids_known app trace self.old q)) }
    {
        let came = came_since(alloc, carried, index)?;
        match self.spans.insert(key, came) {
            Ok(_) => Ok(()),
            Err(_) => Err(NoMemory),
        }
    }

    // Begins with the first entry of a span, which is given by its index. Where nothing is handed, nothing is known to be carried.
    fn begin(
        &mut self,
        alloc: Global,
        key: SpanKey,
        index: u32,
        handed: Option<&Lineage>,
    ) -> Result<(), NoMemory>
        ensures { (app : App) (trace : List Entry) (q : SpanKey)
            → OnOk result (ids_known app trace self.new q
            ≡ cond (same_key key q) (unwrap_or (option_map (λ ids. ids.now) handed.entry) [] ++ (brought_at app trace index ++ []))
            (ids_known app trace self.old q)) }
    {
        match handed {
            Some(lineage) => {
                let carried = lineage.copy(alloc)?;
                self.set(alloc, key, carried, index)
            }
            None => self.set(alloc, key, Lineage::root(alloc), index),
        }
    }

    /// Follows an entry that is given by its index, and tells whether it loses an id: one that came to its span, and is not handed. Where
    /// it loses none, what it brings comes to its span, behind all that is handed there.
    pub fn follow(
        &mut self,
        alloc: Global,
        app: &App,
        trace: &Trace,
        index: u32,
        entry: &Entry,
        handed: Option<&Lineage>,
    ) -> Result<bool, NoMemory>
        requires { IsTrue (is_sound app.now) }
        ensures { IsLegalTrace app.now trace.now → slice_get trace.now index ≡ Some entry.now
            → IsHanded app.now trace.now index entry.now (option_map (λ ids. ids.now) handed.entry) → IsKnown app.now trace.now index self.old
            → IfOk result (λ lost. TellsLoss app.now trace.now index entry.now lost
            × (lost ≡ false → IsKnown app.now trace.now (index + 1) self.new)) }
    {
        let Some(key) = key_of(entry) else {
            return Ok(false);
        };
        match self.spans.get_mut(&key) {
            Some(came) => came.follow(alloc, app, trace, index, handed),
            None => {
                self.begin(alloc, key, index, handed)?;
                Ok(false)
            }
        }
    }
}
