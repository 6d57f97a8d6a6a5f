ghost use Rattle.std.specs.Prelude.{◌≡◌, ◌<◌, ◌≤◌, true, List, [], ◌∷◌, ◌++◌, length, None, Some, slice_get, IfOk, IfSome, IfNone, is_some, unwrap_or};
ghost use Rattle.anti_kind.specs.declared.call.Call.TheVariants.{Pull};
ghost use Rattle.anti_kind.specs.declared.call.Reply.TheVariants.{Pulled};
ghost use Rattle.anti_kind.specs.declared.entry.Entry.{Entry};
ghost use Rattle.anti_kind.specs.Stored.{row_of};
ghost use Rattle.anti_kind.specs.Store.{absent, next, was_pulled};
ghost use Rattle.anti_kind.specs.Objects.{Follows};
ghost use Rattle.anti_kind.specs.Machines.{MayApply};

use crate::pull_cursor::PullCursor;
use crate::topic_store::Topic;
use anti_ids::NoMemory;
use anti_kind::{Handle, Reply, Sub};
use anti_replicas::cell_key;

impl Topic {
    ghost use Rattle.anti_topic.specs.TopicStates.{its_store, its_start, TopicStands, At};
    ghost use Rattle.anti_topic.specs.inner.Changes.{MovesOn};

    fn sub_at(&self, number: u32) -> Option<&Sub>
        ensures found { IfSome result (λ sub. slice_get self.now.subs.items number ≡ Some sub.now) }
        ensures none { IfNone result (slice_get self.now.subs.items number ≡ None) }
    {
        self.subs.as_slice().get(number as usize)
    }

    fn cursor_at(&self, number: u32) -> Option<&PullCursor>
        ensures found { IfSome result (λ place. slice_get self.now.cursors.items number ≡ Some place.now) }
        ensures none { IfNone result (length self.now.cursors.items ≤ number) }
    {
        self.cursors.as_slice().get(number as usize)
    }

    // The version of the cell that a subscription pulls next, 0 where none is whole at its region: what the region shows of the key
    // that the cell after those that it pulled has.
    pub(crate) fn next_version(&self, number: u32) -> u64
        ensures { (h : List Entry) → At self.now h
            → next (its_store self.now) h number ≡ row_of h result }
    {
        let Some(sub) = self.sub_at(number) else {
            return 0;
        };
        let Some(cursor) = self.cursor_at(number) else {
            return 0;
        };
        match cell_key(&sub.channel, cursor.count.saturating_add(1)) {
            Some(key) => self.base.shown_version(sub.region, &key),
            None => 0,
        }
    }

    // Whether a subscription pulled the cell of this version: it pulled those of its channel up to the last.
    pub(crate) fn was_pulled(&self, number: u32, version: u64) -> bool
        ensures { (h : List Entry) → At self.now h → result ≡ was_pulled h number version }
    {
        let Some(sub) = self.sub_at(number) else {
            return false;
        };
        let Some(cursor) = self.cursor_at(number) else {
            return false;
        };
        if version == 0 {
            return false;
        }
        if version > cursor.last {
            return false;
        }
        self.base.is_cell(version, &sub.channel)
    }

    // The reply that hands out the cell of a version.
    pub(crate) fn cell_of(&self, version: u64) -> Result<Reply, NoMemory>
        requires { (h : List Entry) × At self.now h × (is_some (row_of h version) ≡ true) }
        ensures { (h : List Entry) → At self.now h
            → IfOk result (λ reply. reply ≡ Pulled (unwrap_or (row_of h version) (absent []))) }
    {
        match self.base.written_row(version)? {
            Some(row) => Ok(Reply::Pulled(Handle::new(self.base.allocator(), row)?)),
            None => unreachable!(), // the version is that of a cell
        }
    }

    // Moves the cursor of a subscription on by one, to a cell of this version.
    fn move_on(&mut self, number: u32, version: u64)
        requires { number < length self.old.cursors.items }
        ensures { MovesOn self.old self.new number version }
    {
        let cursor = &mut self.cursors[number as usize];
        cursor.count = cursor.count.saturating_add(1);
        cursor.last = version;
    }

    // Pulls the next cell of a subscription, which the reply hands out. It takes no memory.
    pub(crate) fn pull(&mut self, number: u32, reply: &Reply)
        requires { MayApply (its_start self.old) (TopicStands self.old) (Pull number) reply.now }
        ensures stands { (h : List Entry) (e : Entry) → At self.old h
            → Follows (its_start self.old) h e → e.call ≡ Pull number → e.reply ≡ reply.now
            → TopicStands self.new (h ++ e ∷ []) }
        ensures start { its_start self.new ≡ its_start self.old }
    {
        let Reply::Pulled(cell) = reply else {
            unreachable!(); // that is the reply to a pull
        };
        self.move_on(number, cell.get().version);
        self.base.note(1);
    }
}
