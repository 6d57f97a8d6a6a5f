ghost use Rattle.std.specs.Prelude.{◌≡◌, ◌⊎◌, ℕ, is_some, true, Contains, List, Ok, Err, IfOk, IfErr, OnErr};
ghost use Rattle.anti_ids.specs.Ids.{with_ids};
ghost use Rattle.anti_ids.specs.declared.id.WriteId.{WriteId as Id};
ghost use Rattle.anti_kind.specs.declared.row.Row.{Row as Shown};
ghost use Rattle.anti_shim.specs.Barriers.{BarrierGives};
ghost use Rattle.anti_shim.specs.DryRuns.{DryRunGives};
ghost use Rattle.anti_shim.specs.Plans.{plan};
ghost use Rattle.anti_shim.specs.Shims.{Pulls, Reads, Settles, Writes, brought_by};
ghost use Rattle.anti_shim.specs.Sights.{HasSights, IsHere, unseen};
ghost use Rattle.anti_shim.specs.Steps.{between};
ghost use Rattle.sample_callers.specs.Turns.{AllSeen, Carries, IsRefusal, ShowsCarried, Then};

use anti_ids::{Lineage, LineageRefused, Name, Value, WriteId};
use anti_kind::{Call, Handle, Port, Row};
use anti_shim::{
    Barrier, BarrierAnswer, Caller, KvShim, QueueShim, ShimFault, TopicShim, barrier, dry_run,
    reads_show_what_was_seen, transfer_row,
};
use std::alloc::Global;

/// Writes a post, and then a note of it, which is stored with the id of the post. The lineage, which goes on with the message, then has
/// both ids, beside all that it had.
pub fn post_and_note<P: Port>(
    alloc: Global,
    port: &mut P,
    who: &mut Caller,
    posts: &KvShim,
    notes: &TopicShim,
    post: (Name, Value),
    note: (Name, Value),
    lineage: &mut Lineage,
) -> Result<(WriteId, WriteId), ShimFault>
    requires posts { is_some (P.start port.old posts.now.store) ≡ true }
    requires notes { is_some (P.start port.old notes.now.store) ≡ true }
    ensures carried { IfOk result (λ ids. Carries ids.0 lineage.old lineage.new × Carries ids.1 lineage.old lineage.new) }
    ensures stored { let step = between P.Port port.old port.new who.old who.new in
        IfOk result (λ ids. (kept : List Id) × Carries ids.0 lineage.old kept
        × Then step (λ s. Writes s posts.now.store post.0 post.1 lineage.old kept (Ok ids.0))
        (λ s. Writes s notes.now.store note.0 note.1 kept lineage.new (Ok ids.1))) }
    ensures cause { let step = between P.Port port.old port.new who.old who.new in
        IfErr result (λ fault. Writes step posts.now.store post.0 post.1 lineage.old lineage.new (Err fault)
        ⊎ ((id : Id) × (kept : List Id)
        × Then step (λ s. Writes s posts.now.store post.0 post.1 lineage.old kept (Ok id))
        (λ s. Writes s notes.now.store note.0 note.1 kept lineage.new (Err fault)))) }
    ensures err { OnErr result ((lineage.new ≡ lineage.old)
        ⊎ ((id : Id) × (id.store ≡ posts.now.store) × Carries id lineage.old lineage.new)) }
    ensures fixed { (o : ℕ) → P.start port.new o ≡ P.start port.old o }
{
    let (key, value) = post;
    let posted = posts.write(alloc, port, who, key, value, lineage)?;
    let (channel, value) = note;
    let noted = notes.write(alloc, port, who, channel, value, lineage)?;
    Ok((posted, noted))
}

/// Reads a key behind a barrier, whose looks found all that the lineage has of the stores `here`, and else gives what the barrier
/// answered. A row shows what the lineage has of its key, if the store is one of `here`. A caller that asks again passes the same cursor,
/// and no look is made again that found all.
pub fn read_behind<P: Port>(
    alloc: Global,
    port: &mut P,
    who: &mut Caller,
    store: &KvShim,
    key: Name,
    here: &[u32],
    lineage: &Lineage,
    cursor: &mut Barrier,
) -> Result<Result<Row, ShimFault>, BarrierAnswer>
    requires store { is_some (P.start port.old store.now.store) ≡ true }
    requires here { IsHere (P.start port.old) store.now.region here.now }
    requires sights { HasSights (P.view port.old) who.old store.now.region (plan here.now lineage.now) cursor.old }
    ensures row { let step = between P.Port port.old port.new who.old who.new in let planned = plan here.now lineage.now in
        IfOk result (λ read. Then step (AllSeen store.now.region planned) (λ s. Reads s store.now.store store.now.region key read)) }
    ensures shows { Contains here.now store.now.store
        → IfOk result (λ read. IfOk read (ShowsCarried (P.start port.old store.now.store) store.now.store key lineage.now)) }
    ensures cause { let step = between P.Port port.old port.new who.old who.new in let planned = plan here.now lineage.now in
        IfErr result (BarrierGives step store.now.region planned (unseen cursor.old planned) cursor.new) }
    ensures refused { IfErr result IsRefusal }
    ensures again { OnErr result (HasSights (P.view port.new) who.new store.now.region (plan here.now lineage.now) cursor.new) }
    ensures fixed { (o : ℕ) → P.start port.new o ≡ P.start port.old o }
{
    let answer = barrier(alloc, port, who, store.region, here, lineage, cursor);
    if !matches!(answer, BarrierAnswer::Clear(_)) {
        return Err(answer);
    }
    reads_show_what_was_seen();
    Ok(store.read(port, who, key))
}

/// Reads a key at once, and names the ids of the lineage that looks in the region named as missing just before.
pub fn read_anyway<P: Port>(
    alloc: Global,
    port: &mut P,
    who: &mut Caller,
    store: &KvShim,
    key: Name,
    here: &[u32],
    lineage: &Lineage,
) -> Result<(Row, Lineage), ShimFault>
    requires store { is_some (P.start port.old store.now.store) ≡ true }
    requires here { IsHere (P.start port.old) store.now.region here.now }
    ensures read { let step = between P.Port port.old port.new who.old who.new in
        IfOk result (λ read. Then step (λ s. DryRunGives s store.now.region (plan here.now lineage.now) (Ok read.1))
        (λ s. Reads s store.now.store store.now.region key (Ok read.0))) }
    ensures cause { let step = between P.Port port.old port.new who.old who.new in let planned = plan here.now lineage.now in
        IfErr result (λ fault. DryRunGives step store.now.region planned (Err fault)
        ⊎ ((named : List Id) × Then step (λ s. DryRunGives s store.now.region planned (Ok named))
        (λ s. Reads s store.now.store store.now.region key (Err fault)))) }
    ensures fixed { (o : ℕ) → P.start port.new o ≡ P.start port.old o }
{
    let missing = dry_run(alloc, port, who, store.region, here, lineage)?;
    let row = store.read(port, who, key)?;
    Ok((row, missing))
}

/// Pulls the next message of a queue for a subscription, and takes over what it depends on. Where the lineage can't take that, the message
/// is given back, so that it may be pulled again.
pub fn pull_and_take_over<P: Port>(
    port: &mut P,
    who: &mut Caller,
    queue: &QueueShim,
    sub: u32,
    lineage: &mut Lineage,
) -> Result<Result<Handle<Row>, LineageRefused>, ShimFault>
    requires { is_some (P.start port.old queue.now.store) ≡ true }
    ensures taken { let step = between P.Port port.old port.new who.old who.new in
        IfOk result (λ pulled. IfOk pulled (λ row. Pulls step queue.now.store sub (Ok row)
        × (lineage.new ≡ with_ids (brought_by queue.now.store row) lineage.old))) }
    ensures back { let step = between P.Port port.old port.new who.old who.new in
        IfOk result (λ pulled. OnErr pulled ((row : Shown) × Then step (λ s. Pulls s queue.now.store sub (Ok row))
        (λ s. Settles s queue.now.store (Call.Nack row.version) (Ok tt)))) }
    ensures kept { IfOk result (λ pulled. OnErr pulled (lineage.new ≡ lineage.old)) }
    ensures err { OnErr result (lineage.new ≡ lineage.old) }
    ensures fixed { (o : ℕ) → P.start port.new o ≡ P.start port.old o }
{
    let row = queue.pull(port, who, sub)?;
    match transfer_row(lineage, queue.store, row.get()) {
        Ok(()) => Ok(Ok(row)),
        Err(refused) => {
            queue.nack(port, who, row.get().version)?;
            Ok(Err(refused))
        }
    }
}
