// The stores of the network, and the steps that its people take.
ghost use Rattle.std.specs.Prelude.{◌≡◌, [], ◌∷◌, IfSome};
ghost use Rattle.anti_live.specs.Clients.{IsOf, LiveView};
ghost use Rattle.anti_live.specs.Stores.{AreStores};

use anti_ids::{List, Name, Value};
use anti_kind::Row;
use anti_live::{Client, Live, LiveKind, LiveStore, LiveStores};
use anti_shim::BarrierAnswer;
use std::alloc::{AllocGlobal, Global};
use std::sync::Wait;

/// The region in which posts are written.
pub const HERE: u32 = 0;

/// The region in which they are read.
pub const AWAY: u32 = 1;

/// A store, by its number and its name. What it has of a post has the key of the post, and its number as the version.
#[derive(Clone, Copy)]
pub struct Store {
    pub number: u32,
    pub name: &'static str,
}

/// The posts, which are numbered from 1.
pub const POSTS: Store = Store {
    number: 0,
    name: "posts",
};

/// A notification of each post.
pub const NOTES: Store = Store {
    number: 1,
    name: "notes",
};

/// A question for each post.
pub const ASKED: Store = Store {
    number: 2,
    name: "asked",
};

// A store with a replica in both regions.
fn live_store(alloc: Global, store: Store) -> Option<LiveStore>
    ensures { IfSome result (λ made. (made.name ≡ store.name.now) × (made.regions.items ≡ HERE ∷ AWAY ∷ [])) }
{
    let regions = vec![in alloc; HERE, AWAY].ok()?;
    Some(LiveStore {
        name: Name::new(store.name.as_bytes()).ok()?,
        kind: LiveKind::Kv,
        regions: List::from(regions),
    })
}

/// The stores, in the order of their numbers.
pub fn stores_of(alloc: Global) -> Option<LiveStores>
    ensures { IfSome result (λ stores. AreStores stores.items) }
{
    let posts = live_store(alloc, POSTS)?;
    let notes = live_store(alloc, NOTES)?;
    let asked = live_store(alloc, ASKED)?;
    let stores = vec![in alloc; posts, notes, asked].ok()?;
    Some(List::from(stores))
}

fn key_of(alloc: Global, number: u64) -> Option<Name> {
    let text = format!(in alloc; "p{number}").ok()?;
    Name::new(text.as_bytes()).ok()
}

/// Begins a new span, in which nothing is carried yet.
pub fn begin(client: &mut Client)
    ensures { (live : LiveView) → IsOf live client.old → IsOf live client.new }
{
    // what is carried in the last span there is would be waited for once more
    if client.span() < u32::MAX {
        client.root();
    }
}

/// The network as a thread sees it. Its calls answer `None` where memory runs out.
#[derive(Drop)]
pub struct Network<'a, R: Wait + AllocGlobal> {
    pub rt: &'a R,
    pub live: &'a Live,
}

impl<'a, R: Wait + AllocGlobal> Network<'a, R> {
    /// Writes what a store has of a post. No replica shows it before it is brought there.
    pub fn write(&self, client: &mut Client, store: Store, number: u64) -> Option<()>
        requires { IsOf self.now.live.now client.old }
        ensures { IsOf self.now.live.now client.new }
    {
        if store.number as usize >= self.live.len() {
            return None;
        }
        let key = key_of(self.rt.alloc(), number)?;
        let value = Value::new(self.rt.alloc(), store.name.as_bytes()).ok()?;
        match self.live.write(self.rt, client, store.number, key, value) {
            Ok(_) => Some(()),
            Err(_) => None,
        }
    }

    /// Brings what a store has of a post to a region. It takes no memory.
    pub fn bring(&self, client: &mut Client, store: Store, number: u64, region: u32)
        requires { IsOf self.now.live.now client.old }
        ensures { IsOf self.now.live.now client.new }
    {
        if (store.number as usize) < self.live.len() {
            let _answer = self
                .live
                .ship(self.rt, client, store.number, region, number, 1);
        }
    }

    /// Waits until all that the client carries is visible in its region.
    pub fn catch_up(&self, client: &mut Client) -> Option<()>
        requires { IsOf self.now.live.now client.old }
        ensures { IsOf self.now.live.now client.new }
    {
        match self.live.barrier_wait(self.rt, client) {
            BarrierAnswer::Clear(_) => Some(()),
            _ => None,
        }
    }

    /// Waits until what a store has of a post is visible in the client's region, and for nothing else.
    pub fn wait_for(&self, client: &mut Client, store: Store, number: u64) -> Option<()>
        requires { IsOf self.now.live.now client.old }
        ensures { IsOf self.now.live.now client.new }
    {
        begin(client);
        let name = store.name;
        let id = format!(in self.rt.alloc(); "1;{name}/p{number}@{number}").ok()?;
        self.live.carry_in(client, id.as_bytes()).ok()?;
        self.catch_up(client)
    }

    /// Reads what a store shows of a post in the client's region. The version of a row that is not there is 0.
    pub fn read(&self, client: &mut Client, store: Store, number: u64) -> Option<Row>
        requires { IsOf self.now.live.now client.old }
        ensures { IsOf self.now.live.now client.new }
    {
        if !client.is_here(store.number) {
            return None;
        }
        let key = key_of(self.rt.alloc(), number)?;
        self.live.read(self.rt, client, store.number, key).ok()
    }
}
