ghost use Rattle.std.specs.Prelude.{◌≡◌, ◌≢◌, ℕ, List, Ok, true};
ghost use Rattle.anti_ids.specs.declared.id.WriteId.{WriteId};
ghost use Rattle.anti_baggage.specs.Laws.{IsItsText, StatesItsLineage};
ghost use Rattle.anti_baggage.specs.Over.{IsOver, are_names};
ghost use Rattle.anti_baggage.specs.Texts.{lineage_text, lineage_text_one};

/// Texts and lineages belong together: a lineage has two texts, and a text one lineage. The contract says it of all names, texts and lineages;
/// the call does nothing.
pub fn texts_state_lineages()
    // The text of a lineage states that lineage.
    ensures again { StatesItsLineage lineage_text }
    // So does its text of version 1.
    ensures again_one { StatesItsLineage lineage_text_one }
    // What states a lineage is one of its two texts, and it is a lineage over the stores.
    ensures only { IsItsText }
    // No two lineages have one text, whichever.
    ensures one_lineage { (stores : List (List ℕ)) (ids others : List WriteId) → are_names stores ≡ true → IsOver stores ids → IsOver stores others
        → (lineage_text stores ids ≡ lineage_text stores others → ids ≡ others)
        × (lineage_text_one stores ids ≡ lineage_text_one stores others → ids ≡ others) }
    // No text is of both versions.
    ensures one_version { (stores : List (List ℕ)) (ids others : List WriteId) → lineage_text stores ids ≢ lineage_text_one stores others }
{}
