ghost use Rattle.std.specs.Prelude.{◌≡◌, ◌++◌, ◌∷◌, ◌<◌, Some, true, length, map, slice_get, IfNone, IfOk, IfSome, OnOk};
ghost use Rattle.std.specs.List.{flat_map};
ghost use Rattle.anti_baggage.specs.Texts.{lineage_text_one};
ghost use Rattle.anti_text.specs.inner.Runs.{IsRun, kept_text, run_text};

use crate::lists::item_at;
use crate::output::Output;
use crate::pieces::{PieceRun, Pieces};
use crate::written_ids::WrittenIds;
use anti_ids::{Ids, Lineage, Name, NoMemory, WriteId};
use anti_kind::Entry;
use std::alloc::Global;

/// Writes lineages over the names of the stores by their numbers, by the texts of the ids of the writes of a record, each made once.
#[derive(Drop)]
pub struct IdTexts {
    /// The names of the stores.
    pub stores: Vec<Name>,
    written: WrittenIds,
    pieces: Pieces,
    ghost kept: { pieces ≡ map (kept_text stores.items) written.ids.items },
}

fn pieces_of(alloc: Global, stores: &[Name], ids: &[WriteId]) -> Result<Pieces, NoMemory>
    ensures { IfOk result (λ pieces. pieces ≡ map (kept_text stores.now) ids.now) }
{
    let mut pieces = Pieces::with_room(alloc, ids.len())?;
    for id in ids {
        pieces = pieces.with_id(stores, id)?;
    }
    Ok(pieces)
}

// Whether two ids are the same.
fn are_same(one: &WriteId, other: &WriteId) -> bool
    ensures { result ≡ true → one.now ≡ other.now }
{
    *one == *other
}

// What stands behind an id at the front of a list; `None` where it does not stand there.
fn behind_front<'a>(ids: &'a [WriteId], id: &WriteId) -> Option<&'a [WriteId]>
    ensures { IfSome result (λ behind. ids.now ≡ id.now ∷ behind.now) }
{
    let (front, behind) = ids.split_first()?;
    if are_same(front, id) {
        Some(behind)
    } else {
        None
    }
}

impl IdTexts {
    /// The texts of the ids that entries wrote, by processes that are born on so many objects.
    pub fn of(
        alloc: Global,
        stores: Vec<Name>,
        objects: usize,
        entries: &[Entry],
    ) -> Result<IdTexts, NoMemory>
        ensures { IfOk result (λ texts. texts.stores.items ≡ stores.items) }
    {
        let written = WrittenIds::of(alloc, stores.len(), objects, entries)?;
        let pieces = pieces_of(alloc, stores.as_slice(), written.ids.as_slice())?;
        Ok(IdTexts {
            stores,
            written,
            pieces,
        })
    }

    // Whether the text of a number is that of an id.
    fn is_at(&self, number: usize, id: &WriteId) -> bool
        ensures { result ≡ true → slice_get self.now.written.ids.items number ≡ Some id.now }
    {
        match item_at(self.written.ids.as_slice(), number) {
            Some(kept) => are_same(kept, id),
            None => false,
        }
    }

    // The number of the text of an id; `None` where it is not kept.
    fn number_of(&self, id: &WriteId) -> Option<usize>
        ensures { IfSome result (λ n. slice_get self.now.written.ids.items n ≡ Some id.now) }
    {
        let number = self.written.place_of(id)?;
        if self.is_at(number, id) {
            Some(number)
        } else {
            None
        }
    }

    // Goes on with a run while the ids that come are those whose texts come next, and gives the first other id.
    fn in_step<'l>(&self, ids: &mut Ids<'l>, run: &mut PieceRun) -> Option<&'l WriteId>
        requires { IsRun self.now.pieces run.old }
        ensures run { IsRun self.now.pieces run.new }
        ensures none { IfNone result (run_text self.now.pieces run.new
            ≡ run_text self.now.pieces run.old ++ flat_map (kept_text self.now.stores.items) ids.old) }
        ensures some { IfSome result (λ id. run_text self.now.pieces run.new
            ++ flat_map (kept_text self.now.stores.items) (id.now ∷ ids.new)
            ≡ run_text self.now.pieces run.old ++ flat_map (kept_text self.now.stores.items) ids.old) }
        ensures less { IfSome result (λ _. length ids.new < length ids.old) }
    {
        let mut rest = self.written.ids.as_slice().split_at(run.to).1;
        while let Some(id) = ids.next() {
            let Some(behind) = behind_front(rest, id) else {
                return Some(id);
            };
            run.to = self.pieces.behind(run.to);
            rest = behind;
        }
        None
    }

    // Goes on with an id and a comma behind a run.
    fn go_on(&self, out: &mut Output, run: PieceRun, id: &WriteId) -> Result<PieceRun, NoMemory>
        requires { IsRun self.now.pieces run }
        ensures text { IfOk result (λ next. out.new ++ run_text self.now.pieces next
            ≡ (out.old ++ run_text self.now.pieces run) ++ kept_text self.now.stores.items id.now) }
        ensures run { IfOk result (λ next. IsRun self.now.pieces next) }
    {
        match self.number_of(id) {
            Some(number) => self.pieces.go_on(out, run, number),
            None => {
                self.pieces.write(out, run)?;
                out.id(self.stores.as_slice(), id)?;
                out.put(b",")?;
                Ok(PieceRun { from: 0, to: 0 })
            }
        }
    }

    // Writes the ids of a lineage, each with a comma behind it.
    fn ids(&self, out: &mut Output, lineage: &Lineage) -> Result<(), NoMemory>
        ensures { OnOk result
            (out.new ≡ out.old ++ flat_map (kept_text self.now.stores.items) lineage.now) }
    {
        let mut run = PieceRun { from: 0, to: 0 };
        let mut ids = lineage.iter();
        while let Some(id) = self.in_step(&mut ids, &mut run) {
            run = self.go_on(out, run, id)?;
        }
        self.pieces.write(out, run)
    }

    /// Writes a lineage.
    pub fn lineage(&self, out: &mut Output, lineage: &Lineage) -> Result<(), NoMemory>
        ensures { OnOk result (out.new ≡ out.old ++ lineage_text_one self.now.stores.items lineage.now) }
    {
        out.put(b"1;")?;
        if lineage.is_empty() {
            return Ok(());
        }
        self.ids(out, lineage)?;
        out.take_last();
        Ok(())
    }
}
