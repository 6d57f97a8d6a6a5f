//! A small social network on four threads, over stores with replicas in two regions. Ana and Dan are in one region, Ben and Cleo in the
//! other.
//!
//! Ana has written posts, and behind each a notification, which she brings to the other region. Ben waits for a notification and reads
//! its post, which is not there yet: so he asks for it. Dan brings a post once Ben has asked for it. Cleo waits for a notification as Ben
//! does, takes it over, and waits by a barrier for all that it depends on, before she reads the post.
//!
//! It prints the same each time, though the threads run side by side: who needs what another brings waits for it by `barrier_wait`. A
//! barrier waits until a write is brought to a region; a write that nobody has made it names at once. So posts, notifications and
//! questions are all written before the threads begin, and nobody sees one before it is brought.
#![tactic(auto)]

ghost use Rattle.std.specs.Prelude.{◌≡◌, ◌≤◌, IfSome};
ghost use Rattle.anti_live.specs.Clients.{IsOf};

mod network;
mod people;

use anti_live::{Client, Live};
use network::{AWAY, HERE, Network, stores_of};
use people::HOW_MANY;
use std::alloc::AllocGlobal;
use std::io;
use std::process::ExitCode;
use std::sync::Wait;
use std::thread::{Threads, join};

// What came of it: how many posts Ben and Cleo saw, how many questions Dan heard, and how many entries the histories of the stores have.
#[derive(Clone, Copy)]
struct Story {
    ben: u64,
    cleo: u64,
    dan: u64,
    entries: [usize; 3],
}

// A further client, in this region.
fn split(live: &Live, client: &mut Client, region: u32) -> Option<Client>
    requires of { IsOf live.now client.old }
    requires region { region ≤ AWAY }
    ensures rest { IsOf live.now client.new }
    ensures new { IfSome result (λ new. IsOf live.now new) }
{
    if client.room() == 0 {
        return None;
    }
    live.split(client, region).ok()
}

// The four threads. Where none can be made, `join` makes its second call first: so nobody waits for what comes behind.
fn side_by_side<R: Threads + Wait + Sync + AllocGlobal>(
    rt: &R,
    live: &Live,
    anas: Client,
    bens: Client,
    cleos: Client,
    dans: Client,
) -> (Client, [Option<u64>; 3])
    requires ana { IsOf live.now anas }
    requires ben { IsOf live.now bens }
    requires cleo { IsOf live.now cleos }
    requires dan { IsOf live.now dans }
    ensures { IsOf live.now result.0 }
{
    let (((cleos, cleo), (dans, dan)), ((bens, ben), mut left)) = join(
        rt,
        ||
            requires { IsOf live.now cleos × IsOf live.now dans }
        {
            join(
                rt,
                || Network { rt, live }.cleo(cleos),
                || Network { rt, live }.dan(dans),
            )
        },
        ||
            requires { IsOf live.now bens × IsOf live.now anas }
        {
            join(
                rt,
                || Network { rt, live }.ben(bens),
                || Network { rt, live }.ana(anas),
            )
        },
    );
    live.join(&mut left, bens);
    live.join(&mut left, cleos);
    live.join(&mut left, dans);
    (left, [ben, cleo, dan])
}

// `None` where memory runs out.
fn play<R: Threads + Wait + Sync + AllocGlobal>(rt: &R) -> Option<Story> {
    let (live, mut ana) = Live::start(rt.alloc(), stores_of(rt.alloc())?, HERE).ok()?;
    let mut ben = split(&live, &mut ana, AWAY)?;
    let cleo = split(&live, &mut ana, AWAY)?;
    let dan = split(&live, &mut ana, HERE)?;
    Network { rt, live: &live }.write_all(&mut ana, &mut ben)?;
    let (left, [ben, cleo, dan]) = side_by_side(rt, &live, ana, ben, cleo, dan);
    let kepts = live.close(left).ok()?;
    let [posts, notes, asked] = kepts.as_slice() else {
        return None;
    };
    Some(Story {
        ben: ben?,
        cleo: cleo?,
        dan: dan?,
        entries: [posts.1.len(), notes.1.len(), asked.1.len()],
    })
}

fn tell(rt: &impl Print, story: Story) -> io::Result<()> {
    let Story {
        ben,
        cleo,
        dan,
        entries: [posts, notes, asked],
    } = story;
    println!(rt; "ana wrote {HOW_MANY} posts and a notification behind each")?;
    println!(rt; "ben, without a barrier: {HOW_MANY} notifications, {ben} of their posts")?;
    println!(rt; "cleo, with a barrier: {HOW_MANY} notifications, {cleo} of their posts")?;
    println!(rt; "dan brought {dan} posts, each after it was asked for")?;
    println!(rt; "the histories: {posts} entries of posts, {notes} of notes, {asked} of asked")
}

fn main(rt: HostRuntime) -> ExitCode {
    let Some(story) = play(&rt) else {
        let _ = eprintln!(rt; "anti_feed: no memory");
        return ExitCode::FAILURE;
    };
    match tell(&rt, story) {
        Ok(()) => ExitCode::SUCCESS,
        Err(_) => ExitCode::FAILURE,
    }
}
