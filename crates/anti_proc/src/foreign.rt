ghost use Rattle.std.specs.Prelude.{◌≡◌, [], Some, None, true, false, Err, IfOk, OnOk};
ghost use Rattle.std.specs.List.{list_all};
ghost use Rattle.anti_app.specs.Running.{CanRun};
ghost use Rattle.anti_proc.specs.Stated.{has_stores, stated_lineage};
ghost use Rattle.anti_proc.specs.Foreign.{is_foreign};
ghost use Rattle.anti_proc.specs.inner.Statements.{came_by};

use crate::end::ProcFault;
use anti_app::{App, is_store, store_names};
use anti_baggage::{BaggageFault, Carried};
use anti_ids::Lineage;
use anti_kind::{Message, Reply, Row};
use std::alloc::Global;

/// Whether each id of a lineage is of a store of the application.
pub fn has_stores(app: &App, lineage: &Lineage) -> bool
    ensures { result ≡ has_stores app.now lineage.now }
{
    for id in lineage.iter() {
        if !is_store(app, id.store) {
            return false;
        }
    }
    true
}

// The same of the lineages of rows.
fn have_stores(app: &App, rows: &[Row]) -> bool
    ensures { result ≡ list_all (λ row. has_stores app.now row.lineage) rows.now }
{
    for row in rows {
        if !has_stores(app, &row.lineage) {
            return false;
        }
    }
    true
}

// The empty lineage, unless the reply is foreign.
fn none_unless(alloc: Global, is_foreign: bool) -> Result<Lineage, ProcFault>
    ensures ids { IfOk result (λ ids. ids ≡ []) }
    ensures known { OnOk result (is_foreign ≡ false) }
    ensures foreign { result ≡ Err ProcFault.Foreign → is_foreign ≡ true }
{
    if is_foreign {
        return Err(ProcFault::Foreign);
    }
    Ok(Lineage::root(alloc))
}

/// The lineage that the baggage of a message states. `Foreign` comes exactly where it states none.
#[tactic(auto, using(anti_app::proofs::Runnable::names_fit))]
pub fn stated(alloc: Global, app: &App, message: &Message) -> Result<Carried, ProcFault>
    requires { CanRun app.now }
    ensures ids { IfOk result (λ ids. stated_lineage app.now message.now ≡ Some ids) }
    ensures foreign { result ≡ Err ProcFault.Foreign → stated_lineage app.now message.now ≡ None }
{
    let names = store_names(alloc, app)?;
    match message.baggage.carried(alloc, names.as_slice()) {
        Ok(carried) => Ok(carried),
        Err(BaggageFault::NoMemory) => Err(ProcFault::NoMemory),
        Err(_) => Err(ProcFault::Foreign),
    }
}

/// The lineage that came with the message of a reply, and the empty one with a reply that has none. `Foreign` comes exactly where the
/// reply is foreign.
pub fn brought(alloc: Global, app: &App, reply: &Reply) -> Result<Lineage, ProcFault>
    requires { CanRun app.now }
    ensures ids { IfOk result (λ ids. ids ≡ came_by app.now reply.now) }
    ensures known { OnOk result (is_foreign app.now reply.now ≡ false) }
    ensures foreign { result ≡ Err ProcFault.Foreign → is_foreign app.now reply.now ≡ true }
{
    match reply {
        Reply::Written {
            over: Some(kept),
            ..
        } => none_unless(alloc, !has_stores(app, kept.get())),
        Reply::Shown(rows) => none_unless(alloc, !have_stores(app, rows.as_slice())),
        Reply::Missing { missing, unwritten } => none_unless(
            alloc,
            !(has_stores(app, missing.get()) && has_stores(app, unwritten.get())),
        ),
        Reply::Pulled(row) => none_unless(alloc, !has_stores(app, &row.get().lineage)),
        Reply::Got { message, .. } => Ok(stated(alloc, app, message.get())?.into_lineage()),
        _ => Ok(Lineage::root(alloc)),
    }
}
