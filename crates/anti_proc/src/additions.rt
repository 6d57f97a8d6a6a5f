ghost use Rattle.std.specs.Prelude.{◌≡◌, ◌==◌, [], ◌++◌, List, IfOk, option_map, unwrap_or};
ghost use Rattle.std.specs.List.{list_all};
ghost use Rattle.anti_ids.specs.declared.id.WriteId.{WriteId};
ghost use Rattle.anti_proc.specs.inner.Adding.{Adds};
ghost use Rattle.anti_proc.specs.Local.{Setting, Local, held_ids, id_at, removed, row_ids, rows_ids};
ghost use Rattle.anti_proc.specs.Meaning.{Go, carry};
ghost use Rattle.anti_proc.specs.inner.Standing.{stage_or};

use crate::end::BodyEnd;
use crate::next::Stage;
use crate::variables::Binding;
use anti_baggage::Carried;
use anti_ids::{Lineage, LineageRefused, MOST_IDS, NoMemory, WriteId};
use anti_kind::{Handle, Row};

// Adds the id of a version to a lineage.
fn add_id(carried: &mut Carried, id: WriteId) -> Result<(), LineageRefused>
    ensures { Adds (id_at id.store id.key id.version) carried.old carried.new result }
{
    if id.version > 0 {
        carried.append(id)?;
    }
    Ok(())
}

// Adds the id of a version, and what is kept beside it.
#[tactic(auto, using(crate::proofs::Unions::more_refused, crate::proofs::Unions::with_ids_append))]
fn add_kept(carried: &mut Carried, id: WriteId, kept: &Lineage) -> Result<(), LineageRefused>
    ensures { Adds (id_at id.store id.key id.version ++ kept.now) carried.old carried.new result }
{
    add_id(carried, id)?;
    carried.transfer(kept)
}

/// Adds the ids that a row of a store brings.
pub fn add_row(carried: &mut Carried, store: u32, row: &Row) -> Result<(), LineageRefused>
    ensures { Adds (row_ids store row.now) carried.old carried.new result }
{
    let id = WriteId {
        store,
        key: row.key,
        version: row.version,
    };
    add_kept(carried, id, &row.lineage)
}

// Adds the ids that rows of a store bring.
#[tactic(auto, using(crate::proofs::Unions::first_refused, crate::proofs::Unions::first_added))]
fn add_rows(carried: &mut Carried, store: u32, rows: &[Row]) -> Result<(), LineageRefused>
    ensures { Adds (rows_ids store rows.now) carried.old carried.new result }
{
    for row in rows {
        add_row(carried, store, row)?;
    }
    Ok(())
}

// Adds the ids of what a variable holds.
fn add_held(carried: &mut Carried, held: Option<&Binding>) -> Result<(), LineageRefused>
    ensures { Adds (held_ids (option_map (λ h. h.now) held.entry)) carried.old carried.new result }
{
    match held {
        Some(Binding::Wrote { id, lineage }) => add_kept(carried, *id, lineage),
        Some(Binding::Saw { store, rows }) => add_rows(carried, *store, rows.as_slice()),
        Some(Binding::Heard(_)) => Ok(()),
        None => Ok(()),
    }
}

// What is next where ids were added to what is carried: nothing, or the end, where they were too many.
fn next_with(
    carried: &Carried,
    added: Result<(), LineageRefused>,
) -> Result<Option<Stage>, NoMemory>
    ensures { (ids old : List WriteId) → Adds ids old carried.now added
        → IfOk result (λ stage. (s : Setting) (l : Local) (go : Go) → l.carried ≡ old
        → stage_or stage s (record l { carried = carried.now }) go ≡ carry ids l go) }
{
    match added {
        Ok(()) => {
            // as each lineage
            let short = carried.lineage().len() as usize <= MOST_IDS;
            prove!(short);
            Ok(None)
        }
        Err(LineageRefused::Full) => Ok(Some(Stage::Over(BodyEnd::LineageFull))),
        Err(LineageRefused::NoMemory) => Err(NoMemory),
    }
}

/// Adds the ids of what a variable holds to a lineage. Where they are too many the process ends, and some may be added.
pub fn add(carried: &mut Carried, held: Option<&Binding>) -> Result<Option<Stage>, NoMemory>
    ensures { IfOk result (λ stage. (s : Setting) (l : Local) (go : Go) → l.carried ≡ carried.old
        → stage_or stage s (record l { carried = carried.new }) go
        ≡ carry (held_ids (option_map (λ h. h.now) held.entry)) l go) }
{
    let added = add_held(carried, held);
    next_with(carried, added)
}

/// Takes the id of what a variable holds out of a lineage, where that is a write. It takes no memory.
pub fn take_out(carried: &mut Carried, held: Option<&Binding>)
    ensures { carried.new ≡ removed (option_map (λ h. h.now) held.entry) carried.old }
{
    if let Some(Binding::Wrote { id, .. }) = held {
        carried.remove(id);
    }
}

// Adds the id of a write, and what is kept beside it, where that is told.
fn add_over(
    carried: &mut Carried,
    id: WriteId,
    over: &Option<Handle<Lineage>>,
) -> Result<(), LineageRefused>
    ensures { Adds (id_at id.store id.key id.version ++ unwrap_or over.now []) carried.old carried.new result }
{
    match over {
        Some(kept) => add_kept(carried, id, kept.get()),
        None => add_id(carried, id),
    }
}

/// Adds the id of a write to a lineage, and what is kept beside it, where that is told. Where they are too many the process ends, and some
/// may be added.
pub fn add_write(
    carried: &mut Carried,
    id: &WriteId,
    over: &Option<Handle<Lineage>>,
) -> Result<Option<Stage>, NoMemory>
    ensures { IfOk result (λ stage. (s : Setting) (l : Local) (go : Go) → l.carried ≡ carried.old
        → stage_or stage s (record l { carried = carried.new }) go
        ≡ carry (id_at id.now.store id.now.key id.now.version ++ unwrap_or over.now []) l go) }
{
    let added = add_over(carried, *id, over);
    next_with(carried, added)
}

/// Adds the ids of another lineage to a lineage. Where they are too many the process ends.
pub fn carry(carried: &mut Carried, more: &Lineage) -> Result<Option<Stage>, NoMemory>
    ensures { IfOk result (λ stage. (s : Setting) (l : Local) (go : Go) → l.carried ≡ carried.old
        → stage_or stage s (record l { carried = carried.new }) go ≡ carry more.now l go) }
{
    let added = carried.transfer(more);
    next_with(carried, added)
}

/// Whether none of these rows has a version.
pub fn all_absent(rows: &[Row]) -> bool
    ensures { result ≡ list_all (λ row. row.version == 0) rows.now }
{
    for row in rows {
        if row.version != 0 {
            return false;
        }
    }
    true
}
