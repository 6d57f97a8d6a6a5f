ghost use Rattle.std.specs.Prelude.{ℕ, ◌≡◌, Some, List, true, false, IsTrue};
ghost use Rattle.anti_ids.specs.Invariants.{IsLineage};
ghost use Rattle.anti_ids.specs.declared.id.WriteId.{WriteId};
ghost use Rattle.anti_kind.specs.declared.entry.Entry.{Entry};
ghost use Rattle.anti_app.specs.Objects.{region_of};
ghost use Rattle.anti_app.specs.Sound.{is_sound};
ghost use Rattle.anti_app.specs.declared.app.App.{App};
ghost use Rattle.anti_lang.specs.Program.{Block, Barrier, DryRun};
ghost use Rattle.anti_proc.specs.Barriers.{AllLookInARow, AsksFor, BeginsItsLooks, GoesOver, LooksOnceAt};
ghost use Rattle.anti_proc.specs.Brought.{CarriesLineages, CarriesWhatCame, HasLineages, came_first};
ghost use Rattle.anti_proc.specs.Calls.{AllOfProcess};
ghost use Rattle.anti_proc.specs.Carrying.{HandsOnWhatIsCarried, IsAtHome, OfEachCall};
ghost use Rattle.anti_proc.specs.Known.{AllKnown, IsReplyAt};
ghost use Rattle.anti_proc.specs.Local.{Local, Setting};
ghost use Rattle.anti_proc.specs.Meaning.{begun, step_tree, tree_of};
ghost use Rattle.anti_proc.specs.Tasks.{task_of};
ghost use Rattle.anti_proc.specs.declared.task.Task.{Task};

/// What holds of the looks of every barrier and dry run: they are made one after another, each just once, and ask for just what is carried
/// and here. It does nothing.
pub fn laws_of_processes()
    ensures barrier { (s : Setting) (l : Local) → GoesOver s l false (step_tree Barrier s l) }
    ensures dry_run { (s : Setting) (l : Local) → GoesOver s l true (step_tree DryRun s l) }
    ensures once { (s : Setting) (l : Local) (store : ℕ) → LooksOnceAt s l store }
    ensures covers { (s : Setting) (l : Local) (i : WriteId) → AsksFor s l i }
{}

/// A barrier and a dry run begin with the first of their looks, after which the others are left. Each look that a process makes, and no
/// other call, has a list of the looks that are left after it. As long as there are any, the process asks next for the first of them,
/// whatever the reply is: at that look's store, for its ids, in the same region, as dry, in the same span and with the same lineage; and
/// the others are left after that one. So it is for every body, every value, every birth and every list of replies. It does nothing.
pub fn barriers_look_in_a_row()
    ensures barrier { (s : Setting) (l : Local) → BeginsItsLooks s l false (step_tree Barrier s l) }
    ensures dry_run { (s : Setting) (l : Local) → BeginsItsLooks s l true (step_tree DryRun s l) }
    ensures bodies { (body : Block) (s : Setting) (ids : List WriteId)
        → AllLookInARow (begun body s (Some ids)) }
    ensures processes { (app : App) (birth : Entry) → AllLookInARow (tree_of app birth) }
{}

/// What a process carries into a call came to the call's span before, or, in the first span, came with its message or its row, for every
/// body, every value, every birth and every list of replies. It does nothing.
pub fn carries_what_came()
    ensures bodies { (body : Block) (s : Setting) (ids : List WriteId)
        → CarriesWhatCame s.app ids (begun body s (Some ids)) }
    ensures processes { (app : App) (birth : Entry)
        → CarriesWhatCame app (came_first app birth) (tree_of app birth) }
{}

/// What a process carries into a call is a lineage, for every body and every value, where the rows that it was born of and shown have
/// lineages. It does nothing.
pub fn carries_lineages()
    ensures bodies { (body : Block) (s : Setting) (ids : List WriteId)
        → IsLineage ids → CarriesLineages (begun body s (Some ids)) }
    ensures processes { (app : App) (birth : Entry)
        → HasLineages birth.reply → CarriesLineages (tree_of app birth) }
{}

/// A process of a sound application, whose message or row is known, makes known calls as long as the replies to them are known: it writes
/// to keys that are names, it writes, looks for and carries lineages over the application's stores, and what it posts is for a handler
/// that is there, is not too deep and states such a lineage. It does nothing.
pub fn calls_are_known()
    ensures { (app : App) (birth : Entry) → IsTrue (is_sound app)
        → IsReplyAt app birth.object birth.reply → AllKnown app (tree_of app birth) }
{}

/// A write stores just the lineage that the process carries then, a look asks for just those of the carried ids that are of the store
/// looked at, and a message has just the text of what is carried, for every body, every value, every birth and every list of replies. It
/// does nothing.
pub fn calls_hand_on_what_is_carried()
    ensures bodies { (body : Block) (s : Setting) (ids : List WriteId)
        → OfEachCall (HandsOnWhatIsCarried s.app) (begun body s (Some ids)) }
    ensures processes { (app : App) (birth : Entry)
        → OfEachCall (HandsOnWhatIsCarried app) (tree_of app birth) }
{}

/// A process reads, scans, polls and looks in the region of its service, and in no other, for every body, every value, every birth and
/// every list of replies. It does nothing.
pub fn calls_are_made_at_home()
    ensures bodies { (body : Block) (s : Setting) (ids : List WriteId)
        → OfEachCall (IsAtHome s.role.region) (begun body s (Some ids)) }
    ensures processes { (app : App) (birth : Entry) (task : Task) → task_of app birth ≡ Some task
        → OfEachCall (IsAtHome (region_of app task.role.service)) (tree_of app birth) }
{}

/// Each call of a process of a sound application is made at an object that is there: a write, a read, a scan, a poll, a look, an ack or a
/// nack at a store, a post or the taking of a reply at an inbox. A look is made at a store with a replica in its region, for ids of that
/// store alone. The process makes no other call, whatever started it, and whatever its values and the replies are. It does nothing.
pub fn calls_have_their_objects()
    ensures { (app : App) (birth : Entry) → IsTrue (is_sound app)
        → AllOfProcess app (tree_of app birth) }
{}
