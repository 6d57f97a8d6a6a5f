ghost use Rattle.std.specs.Prelude.{◌≡◌, codes};
ghost use Rattle.toml.specs.View.{view};
ghost use Rattle.anti_kind.specs.Kinds.{kind_named};
ghost use Rattle.anti_rules.specs.Trees.{text_at};
ghost use Rattle.anti_rules.specs.StoreFacts.{kind_is};
ghost use Rattle.anti_rules.specs.inner.Facts.{holds};

use crate::toml_tree::text_at;
use anti_kind::{Facts, StoreKind};
use toml::Value;

/// What a rule may ask of the kind of a store.
#[derive(Clone, Copy)]
pub enum Fact {
    /// A write goes to the key that it names, which is read again.
    Keyed,
    /// All keys with a prefix are read at once.
    Scanned,
    /// A key is read that was pulled, or will be.
    Polled,
    /// What was written is pulled by subscriptions.
    Pulled,
    /// What was pulled is handed out again.
    Tried,
    /// A read goes through a cache of its replica.
    Cached,
}

// Whether a fact is so of the stores of a kind.
fn holds(fact: Fact, facts: Facts) -> bool
    ensures { result ≡ holds fact facts }
{
    match fact {
        Fact::Keyed => facts.keyed,
        Fact::Scanned => facts.scanned,
        Fact::Polled => facts.polled,
        Fact::Pulled => facts.pulled,
        Fact::Tried => facts.tried,
        Fact::Cached => facts.cached,
    }
}

/// The kind of a store, where its word names one.
pub fn kind_at(store: &Value) -> Option<StoreKind>
    ensures { result ≡ kind_named (text_at (codes "kind") (view store.now)) }
{
    StoreKind::named(text_at(store, "kind"))
}

/// Whether a store has a kind that there is, and a fact is so of the stores of this kind.
pub fn kind_is(fact: Fact, store: &Value) -> bool
    ensures { result ≡ kind_is (holds fact) (view store.now) }
{
    match kind_at(store) {
        Some(kind) => holds(fact, kind.facts()),
        None => false,
    }
}
