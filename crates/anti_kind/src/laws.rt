// Laws of the tables, each proved once for all objects. The functions do nothing: what they say is in their contracts.
ghost use Rattle.std.specs.Prelude.{List, []};
ghost use Rattle.anti_kind.specs.declared.entry.Entry.{Entry};
ghost use Rattle.anti_kind.specs.Store.{Store};
ghost use Rattle.anti_kind.specs.Objects.{store};
ghost use Rattle.anti_kind.specs.Laws.{LooksRight, OwnAfter, OwnIdsWritten, RowsHaveSources, VersionsGrow, CallsNameOwn, NextIsReady, NoneIsReady, FoundStays, KeepsLaws, ShowsAsItsKind};
ghost use Rattle.anti_kind.specs.Waiting.{NoneLeftGoesOn, NoneStaleGoesOn, StaleIsReady, WaitingGoesOn, WaitingIsNotReady};
ghost use Rattle.anti_kind.specs.Fulls.{ShowsStay, UnitsAddUp, UnitsSuffice, NeedNeverFalls, FullStaysFull, AskingStaysReady};

/// Where the regions of a store show what its kind has them show, that is what was written, and it never falls.
pub fn shows_stay()
    ensures { (s : Store) → ShowsAsItsKind s → ShowsStay (store s) }
{}

/// Looks are right at every store, whatever its regions show.
pub fn looks_are_right()
    ensures { (s : Store) → LooksRight s }
{}

/// The laws of a kind hold of each store whose regions show what its kind has them show.
pub fn stores_keep_laws()
    ensures { (s : Store) → ShowsAsItsKind s → KeepsLaws s }
{}

/// What a look found is visible at its region whatever comes behind it, and a read there shows that version of its key or a later one.
pub fn what_was_found_stays()
    ensures { (s : Store) → KeepsLaws s → FoundStays s }
{}

/// What is held and owed after an entry is what it was before and what the entry's call needed.
pub fn units_add_up()
    ensures { UnitsAddUp }
{}

/// What a legal history holds and owes never passes the units of an object.
pub fn units_suffice()
    ensures { UnitsSuffice }
{}

/// No call that is ready needs less after a longer legal history, but where it then needs more units than an object has: a write
/// whose lineage would have more ids than a lineage may have.
pub fn need_never_falls()
    ensures { NeedNeverFalls }
{}

/// A call that was ready and did not fit never fits after a longer legal history, whatever is asked in between.
pub fn full_stays_full()
    ensures { FullStaysFull }
{}

/// A call by which a process needs units, and that is ready, stays ready after each longer legal history: a write, a read, a scan, a
/// poll, the post of a call or send, a dry look, and a look that misses none.
pub fn asking_stays_ready()
    ensures { AskingStaysReady }
{}

/// At every store, whatever its regions show, each row that a ready call hands out is that of a write; a read may also show that a
/// key has none.
pub fn rows_have_sources()
    ensures { (s : Store) → RowsHaveSources s }
{}

/// The versions of a store's writes grow in the order in which they were made.
pub fn versions_grow()
    ensures { (s : Store) → VersionsGrow s }
{}

/// The region that a ready call names is that of a replica, and the ids of a ready look are of the store itself.
pub fn calls_name_own()
    ensures { (s : Store) → CallsNameOwn s }
{}

/// What the law on reads that show rows together asks of a history, from each of its entries alone.
pub fn own_after()
    ensures { (s : Store) (h : List Entry) → OwnIdsWritten s h → OwnAfter s [] h }
{}

/// The shipment that is named as the next to a region is ready.
pub fn next_is_ready()
    ensures { (s : Store) → NextIsReady s }
{}

/// Where no shipment to a region is named as the next, none is ready.
pub fn none_is_ready()
    ensures { (s : Store) → NoneIsReady s }
{}

/// A call that waits for something is not ready.
pub fn waiting_is_not_ready()
    ensures { WaitingIsNotReady }
{}

/// A call that waits for something waits for it behind each entry that does not bring it, where regions without caches show what is
/// whole there.
pub fn waiting_goes_on()
    ensures { WaitingGoesOn }
{}

/// Where nothing is left to be shipped to a region, nothing is behind each entry that is no write.
pub fn none_left_goes_on()
    ensures { NoneLeftGoesOn }
{}

/// What is told to come again next to a region, so that its cache is not behind, can.
pub fn stale_is_ready()
    ensures { StaleIsReady }
{}

/// Where no cache of a region is behind, none is behind each entry that ships nothing there.
pub fn none_stale_goes_on()
    ensures { NoneStaleGoesOn }
{}
