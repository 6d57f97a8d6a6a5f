ghost use Rattle.std.specs.Prelude.{◌≡◌, ◌-◌, ◌^◌, ◌<◌, IfErr, IfOk, IfSome, length, map, true};
ghost use Rattle.std.specs.List.{AllZip};
ghost use Rattle.anti_ids.specs.declared.limits.TheConstants.{MOST_REGIONS};
ghost use Rattle.anti_live.specs.Clients.{Barriers, ClientView, IsJoinedTo, IsLeft, IsOf, asked_alone, least_room};
ghost use Rattle.anti_live.specs.Stores.{AreRegions, AreStores, is_among};
ghost use Rattle.sample_callers.specs.Turns.{Carries, IsHandedOver, IsRefusal, IsServed, ShowsEach};
ghost use Rattle.sample_callers.specs.declared.live.TheConstants.{POSTS};

use anti_ids::{Bytes, List, Name, NoMemory, Value, WriteId};
use anti_kind::Row;
use anti_live::{CarryFault, CarryOutFault, Client, Live, LiveKind, LiveStore, LiveStores};
use anti_object::Kepts;
use anti_shim::{BarrierAnswer, ShimFault, reads_show_what_was_seen};
use std::alloc::{AllocGlobal, Global};
use std::sync::Wait;
use std::thread::{Threads, join_mut};
use thiserror::Error;

/// The number of the store of posts.
pub const POSTS: u32 = 0;

/// The number of the table of notes.
pub const NOTES: u32 = 1;

/// A post and a note of it are written in region 0, and the note comes to region 1 before the post. A reader there, to whom a header named
/// the note, waits for it and then for all that it depends on, and reads the post.
pub fn post_and_notify<R: Threads + Wait + Sync + AllocGlobal>(rt: &R) -> Option<Row> {
    let Ok((live, mut author)) = start(rt.alloc()) else {
        return None;
    };
    let Ok(mut reader) = live.split(&mut author, 1) else {
        return None;
    };
    put(rt, &live, &mut author, POSTS, b"p1", b"a post")?;
    put(rt, &live, &mut author, NOTES, b"n1", b"a note")?;
    // the reader first: where no thread can be made, the first closure is called last
    let (read, ()) = join_mut(
        rt,
        &mut || read_noted(rt, &live, &mut reader),
        &mut || bring(rt, &live, &mut author),
    );
    finish(live, author, reader).ok()?;
    read
}

// Waits for the note, and then for what it depends on.
fn read_noted<R: Wait>(rt: &R, live: &Live, reader: &mut Client) -> Option<Row>
    requires { IsOf live.now reader.old }
    ensures { IsOf live.now reader.new }
{
    live.carry_in(reader, b"2;notes/n1@1").ok()?;
    let note = read_here(rt, live, reader, NOTES, Name::new(b"n1").ok()?)?;
    let post = Name::new(b"p1").ok()?;
    read_after(rt, live, reader, NOTES, &note, POSTS, post)
}

// Brings version 1 of the notes to region 1, and then that of the posts. Each has one part.
fn bring<R: Wait>(rt: &R, live: &Live, author: &mut Client)
    requires of { IsOf live.now author.old }
    requires two { length live.now.stores ≡ 2 }
    ensures { IsOf live.now author.new }
{
    let _note = live.ship(rt, author, NOTES, 1, 1, 1);
    let _post = live.ship(rt, author, POSTS, 1, 1, 1);
}

/// Waits until all that a client carries is visible in its region, and then reads a key there: the row shows each version of it that is
/// carried, or a later one.
pub fn read_carried<R: Wait>(
    rt: &R,
    live: &Live,
    client: &mut Client,
    store: u32,
    key: Name,
) -> Result<Result<Row, ShimFault>, BarrierAnswer>
    requires of { IsOf live.now client.old }
    requires here { is_among store client.old.here ≡ true }
    ensures shows { IfOk result (λ read. IfOk read (ShowsEach store key client.old.lineage)) }
    ensures cause { IfErr result (Barriers live.now client.old client.new) }
    ensures refused { IfErr result IsRefusal }
    ensures lineage { client.new.lineage ≡ client.old.lineage }
    ensures of { IsOf live.now client.new }
{
    match live.barrier_wait(rt, client) {
        BarrierAnswer::Clear(_) => {
            reads_show_what_was_seen();
            Ok(live.read(rt, client, store, key))
        }
        refused => Err(refused),
    }
}

/// As `read_carried`, where the client's region has the store.
pub fn read_here<R: Wait>(
    rt: &R,
    live: &Live,
    client: &mut Client,
    store: u32,
    key: Name,
) -> Option<Row>
    requires { IsOf live.now client.old }
    ensures shows { IfSome result (ShowsEach store key client.old.lineage) }
    ensures of { IsOf live.now client.new }
{
    if !client.is_here(store) {
        return None;
    }
    match read_carried(rt, live, client, store, key) {
        Ok(Ok(row)) => Some(row),
        _ => None,
    }
}

/// Takes over a row of the store `from`, and then reads a key behind all that it depends on: each version of the key that is kept beside
/// that row is shown, or a later one.
pub fn read_after<R: Wait>(
    rt: &R,
    live: &Live,
    client: &mut Client,
    from: u32,
    row: &Row,
    store: u32,
    key: Name,
) -> Option<Row>
    requires { IsOf live.now client.old }
    ensures shows { IfSome result (ShowsEach store key row.now.lineage) }
    ensures of { IsOf live.now client.new }
{
    let Ok(()) = client.transfer(from, row) else {
        return None;
    };
    read_here(rt, live, client, store, key)
}

// A store with replicas in the regions 0 and 1.
fn store_of(alloc: Global, name: Name, kind: LiveKind) -> Result<LiveStore, NoMemory>
    ensures name { IfOk result (λ store. store.name ≡ name) }
    ensures regions { IfOk result (λ store. AreRegions store.regions.items) }
{
    let mut regions = List::new(alloc);
    regions.add(0)?;
    regions.add(1)?;
    Ok(LiveStore {
        name,
        kind,
        regions,
    })
}

/// A store of posts, by their keys, and a table of notes. Both have replicas in the regions 0 and 1.
pub fn posts_and_notes(alloc: Global) -> Result<LiveStores, NoMemory>
    ensures stores { IfOk result (λ stores. AreStores stores.items) }
    ensures two { IfOk result (λ stores. length stores.items ≡ 2) }
{
    let (Ok(posts), Ok(notes)) = (Name::new(b"posts"), Name::new(b"notes")) else {
        unreachable!() // both are names
    };
    let mut stores = List::new(alloc);
    stores.add(store_of(alloc, posts, LiveKind::Kv)?)?;
    stores.add(store_of(alloc, notes, LiveKind::Table)?)?;
    Ok(stores)
}

/// They are shared. The first client is in region 0.
pub fn start(alloc: Global) -> Result<(Live, Client), NoMemory>
    ensures of { IfOk result (λ made. IsOf made.0 made.1) }
    ensures two { IfOk result (λ made. length made.0.stores ≡ 2) }
    ensures room { IfOk result (λ made. 0 < least_room made.1.passes) }
{
    let stores = posts_and_notes(alloc)?;
    Live::start(alloc, stores, 0)
}

/// Writes a value to a key. The client then carries the id of the write, and all that it carried.
pub fn put<R: Wait + AllocGlobal>(
    rt: &R,
    live: &Live,
    client: &mut Client,
    store: u32,
    key: &[u8],
    value: &[u8],
) -> Option<WriteId>
    requires of { IsOf live.now client.old }
    requires store { store < length live.now.stores }
    ensures carried { IfSome result (λ id. Carries id client.old.lineage client.new.lineage) }
    ensures of { IsOf live.now client.new }
{
    let key = Name::new(key).ok()?;
    let value = Value::new(rt.alloc(), value).ok()?;
    match live.write(rt, client, store, key, value) {
        Ok(id) => Some(id),
        Err(_) => None,
    }
}

/// A client for a further thread, in a region, which carries what this one does; none where none can be made.
pub fn client_in(live: &Live, client: &mut Client, region: u32) -> Option<Client>
    requires of { IsOf live.now client.old }
    requires region { region < MOST_REGIONS }
    ensures made { IfSome result (λ made. IsOf live.now made) }
    ensures carried { IfSome result (λ made. IsHandedOver live.now.stores client.old.lineage made.lineage) }
    ensures of { IsOf live.now client.new }
{
    if client.room() == 0 {
        return None;
    }
    let Ok(text) = live.carry_out(client) else {
        return None;
    };
    let Ok(mut made) = live.split(client, region) else {
        return None;
    };
    if live.carry_in(&mut made, text.bytes()).is_err() {
        // it must not be dropped, or the stores are never closed
        live.join(client, made);
        return None;
    }
    Some(made)
}

/// Why a request is not served.
#[derive(Clone, Copy, Debug, Error)]
pub enum ServeFault {
    /// Its header was not carried in.
    #[error(transparent)]
    In(#[from] CarryFault),
    /// The post was not written, or is not carried.
    #[error(transparent)]
    Write(#[from] ShimFault),
    /// There is no header for the reply.
    #[error(transparent)]
    Out(#[from] CarryOutFault),
}

/// Serves a request, with nothing of what was carried before: a post is written with all that the header brings, and the header of the
/// reply has its id too.
pub fn serve<R: Wait>(
    rt: &R,
    live: &Live,
    client: &mut Client,
    header: &[u8],
    key: Name,
    post: Value,
) -> Result<Bytes, ServeFault>
    requires of { IsOf live.now client.old }
    requires posts { POSTS < length live.now.stores }
    requires span { client.old.who.span < 2 ^ 32 - 1 }
    ensures served { IfOk result (IsServed live.now.stores header.now) }
    ensures of { IsOf live.now client.new }
{
    client.root();
    live.carry_in(client, header)?;
    live.write(rt, client, POSTS, key, post)?;
    Ok(live.carry_out(client)?)
}

/// Gives up both clients and closes the stores. Where yet another client is out, the stores come back, and the client into which both went.
pub fn finish(live: Live, mut client: Client, other: Client) -> Result<Kepts, (Live, Client)>
    requires of { IsOf live client }
    requires other { IsOf live other }
    ensures left { IfOk result (λ kepts. (both : ClientView) × IsJoinedTo live client other both
        × AllZip IsLeft (map asked_alone both.passes) kepts.items) }
    ensures of { IfErr result (λ back. IsOf back.0 back.1) }
{
    live.join(&mut client, other);
    live.close(client)
}
