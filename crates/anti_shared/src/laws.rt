// Laws of what `upto` tells, each proved once for all objects. The functions do nothing: what they say is in their contracts.
ghost use Rattle.std.specs.Prelude.{◌≡◌, ℕ, ◌<◌, ◌≤◌, true, List, ◌++◌, slice_index_or};
ghost use Rattle.anti_kind.specs.declared.entry.Entry.{Entry};
ghost use Rattle.anti_kind.specs.declared.row.Row.{Row};
ghost use Rattle.anti_kind.specs.Objects.{Start, store};
ghost use Rattle.anti_kind.specs.Shipments.{upto};
ghost use Rattle.anti_kind.specs.Store.{Store};
ghost use Rattle.anti_kind.specs.Stored.{is_whole, rows};
ghost use Rattle.anti_shared.specs.Passes.{HasLoaded, PassView, start_of, upto_from, with_load};

use anti_kind::Machine;

/// How many versions, from the first on, are whole at a region never falls as a history grows.
pub fn upto_never_falls()
    ensures { (start : Start) (region : ℕ) (h more : List Entry) → upto start h region ≤ upto start (h ++ more) region }
{}

/// Each of these versions is whole at the region.
pub fn upto_is_whole()
    ensures { (s : Store) (region : ℕ) (h : List Entry) (before : ℕ) (d : Row) → before < upto (store s) h region
        → is_whole s.kind h region (slice_index_or (rows h) before d) ≡ true }
{}

/// What `upto` answers a pass is at most what it answers after a call. The call shows the pass a history that has got as far (`loaded`),
/// and the later answer is at least how far that has got (`seen`).
pub fn answers_never_fall<M: Machine>()
    ensures { (old new : PassView M) (region answer later : ℕ) → new.id ≡ old.id → HasLoaded M.start (with_load old region answer) new.seen
        → upto_from (start_of M.start new.id) new.seen region ≤ later → answer ≤ later }
{}
