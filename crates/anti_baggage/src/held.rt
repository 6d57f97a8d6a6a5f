// How a text is held, alone or beside what it states.
ghost use Rattle.std.specs.Prelude.{◌≡◌, [], length, Ok, IfOk, IfSome, IsTrue};
ghost use Rattle.std.specs.Arc.{arc_value};
ghost use Rattle.anti_ids.specs.List.{plain};
ghost use Rattle.anti_baggage.specs.Reading.{read_lineage};
ghost use Rattle.anti_baggage.specs.Texts.{lineage_text, lineage_text_one};
ghost use Rattle.anti_baggage.specs.inner.Kept.{IsHeldOf, IsStated, IsTextOf, StatesOver, text_of};

use crate::encoder::{encode, encode_one};
use crate::over::{are_names, is_over};
use anti_ids::{Bytes, Copies, Lineage, Name, NoMemory};
use std::alloc::Global;
use std::sync::Arc;

// The fewest ids of a lineage of which the text of version 1 is kept too. That of a shorter one is written anew at once.
const FEWEST_TOLD: u32 = 8;

/// A text with what it states: a lineage, over the names of some stores. For no ids there are no names. Beside a long one that serves again stands
/// its text of version 1, which records tell.
#[derive(Drop)]
pub(crate) struct Stated {
    pub(crate) text: Bytes,
    pub(crate) text_one: Option<Bytes>,
    pub(crate) stores: Vec<Name>,
    pub(crate) lineage: Lineage,
}

/// A text, alone or with what it states.
#[derive(Drop)]
pub(crate) enum Held {
    Alone(Bytes),
    Known(Arc<Stated>),
}

/// The same for one more owner. It takes no memory.
pub(crate) fn share(kept: &Arc<Stated>) -> Result<Arc<Stated>, NoMemory>
    ensures { IfOk result (λ again. arc_value again ≡ arc_value kept.now) }
{
    match Arc::try_clone(kept) {
        Ok(again) => Ok(again),
        Err(_) => Err(NoMemory),
    }
}

// Whether two lists have the same names.
fn are_same_names(one: &[Name], other: &[Name]) -> bool
    ensures { IsTrue result → one.now ≡ other.now }
{
    one == other
}

/// Whether a text is known to state its lineage over these names, too.
pub(crate) fn states_over(kept: &Stated, stores: &[Name]) -> bool
    ensures { IsTrue result → IsStated kept.now → StatesOver stores.now kept.now }
{
    kept.lineage.is_empty() || are_same_names(kept.stores.as_slice(), stores)
}

// A text with the lineage that it states over these names.
fn known(
    alloc: Global,
    text: Bytes,
    text_one: Option<Bytes>,
    stores: &[Name],
    lineage: &Lineage,
) -> Result<Arc<Stated>, NoMemory>
    requires spare { text.spare ≡ 0 }
    requires states { read_lineage stores.now text.items ≡ Ok lineage.now }
    requires is { text.items ≡ lineage_text stores.now lineage.now }
    requires one { IfSome text_one (λ t. t.items ≡ lineage_text_one stores.now lineage.now) }
    ensures text { IfOk result (λ kept. (arc_value kept).text ≡ text) }
    ensures kept { IfOk result (λ kept. IsTextOf lineage.now kept) }
{
    let Ok(stores) = Vec::from_slice(alloc, stores) else {
        return Err(NoMemory);
    };
    let lineage = lineage.copy(alloc)?;
    let stated = Stated {
        text,
        text_one,
        stores,
        lineage,
    };
    match Arc::new(alloc, stated) {
        Ok(kept) => Ok(kept),
        Err(_) => Err(NoMemory),
    }
}

/// Whether what is kept may serve as it is for one more message: its lineage is short, or its text of version 1 is kept.
pub(crate) fn serves_again(kept: &Stated) -> bool {
    kept.text_one.is_some() || kept.lineage.len() < FEWEST_TOLD
}

/// What is kept of a lineage, with its text of version 1 over these names.
pub(crate) fn with_text_one(
    alloc: Global,
    stores: &[Name],
    kept: &Stated,
) -> Result<Arc<Stated>, NoMemory>
    requires states { StatesOver stores.now kept.now }
    requires own { IsStated kept.now }
    ensures text { IfOk result (λ again. (arc_value again).text ≡ kept.now.text) }
    ensures kept { IfOk result (λ again. IsTextOf kept.now.lineage again) }
{
    let text = kept.text.copy(alloc)?;
    let text_one = encode_one(alloc, stores, &kept.lineage)?;
    known(alloc, text, Some(text_one), stores, &kept.lineage)
}

/// The text of a lineage over the names of the stores by their numbers, with what it states: nothing is kept beside a text that states nothing, as one with
/// an id of a store that is not there.
pub(crate) fn text_held(alloc: Global, stores: &[Name], lineage: &Lineage) -> Result<Held, NoMemory>
    ensures text { IfOk result (λ held. text_of held ≡ plain (lineage_text stores.now lineage.now)) }
    ensures kept { IfOk result (λ held. IsHeldOf lineage.now held) }
{
    let text = encode(alloc, stores, lineage)?;
    if lineage.is_empty() {
        return Ok(Held::Known(known(alloc, text, None, &[], lineage)?));
    }
    if !are_names(stores) || !is_over(stores, lineage) {
        return Ok(Held::Alone(text));
    }
    Ok(Held::Known(known(alloc, text, None, stores, lineage)?))
}
