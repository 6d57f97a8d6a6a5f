// The people of the network. On a thread each goes on to the end, also where memory runs out, since others wait for what is brought.
ghost use Rattle.std.specs.Prelude.{◌≡◌};
ghost use Rattle.anti_live.specs.Clients.{IsOf};

use crate::network::{ASKED, AWAY, HERE, NOTES, Network, POSTS, begin};
use anti_kind::Row;
use anti_live::Client;
use std::alloc::AllocGlobal;
use std::sync::Wait;

/// How many posts there are.
pub const HOW_MANY: u64 = 8;

// 1 where a row is there; else its version is 0.
fn seen(row: &Row) -> u64 {
    row.version.min(1)
}

// `None` where memory ran out in one of them.
fn sum(one: Option<u64>, other: Option<u64>) -> Option<u64> {
    Some(one?.saturating_add(other?))
}

impl<'a, R: Wait + AllocGlobal> Network<'a, R> {
    /// Ana writes her posts, and behind each its notification, which is stored with the id of the post. Ben writes a question for each.
    pub fn write_all(&self, ana: &mut Client, ben: &mut Client) -> Option<()>
        requires ana { IsOf self.now.live.now ana.old }
        requires ben { IsOf self.now.live.now ben.old }
        ensures ana { IsOf self.now.live.now ana.new }
        ensures ben { IsOf self.now.live.now ben.new }
    {
        for number in 1..=HOW_MANY {
            begin(ana);
            self.write(ana, POSTS, number)?;
            self.write(ana, NOTES, number)?;
            begin(ben);
            self.write(ben, ASKED, number)?;
        }
        Some(())
    }

    /// Ana brings each notification to the others.
    pub fn ana(&self, mut client: Client) -> Client
        requires { IsOf self.now.live.now client }
        ensures { IsOf self.now.live.now result }
    {
        for number in 1..=HOW_MANY {
            self.bring(&mut client, NOTES, number, AWAY);
        }
        client
    }

    // Ben waits for a notification, and reads the post at once.
    fn read_at_once(&self, client: &mut Client, number: u64) -> Option<u64>
        requires { IsOf self.now.live.now client.old }
        ensures { IsOf self.now.live.now client.new }
    {
        self.wait_for(client, NOTES, number)?;
        let _note = self.read(client, NOTES, number)?;
        let post = self.read(client, POSTS, number)?;
        Some(seen(&post))
    }

    /// Ben reads each post as soon as he has its notification, and then asks for it. It tells how many posts he saw.
    pub fn ben(&self, mut client: Client) -> (Client, Option<u64>)
        requires { IsOf self.now.live.now client }
        ensures { IsOf self.now.live.now result.0 }
    {
        let mut posts = Some(0);
        for number in 1..=HOW_MANY {
            posts = sum(posts, self.read_at_once(&mut client, number));
            self.bring(&mut client, ASKED, number, HERE);
        }
        (client, posts)
    }

    // Cleo waits for a notification, takes it over, and waits for all that it depends on. Then she reads the post.
    fn read_behind_barrier(&self, client: &mut Client, number: u64) -> Option<u64>
        requires { IsOf self.now.live.now client.old }
        ensures { IsOf self.now.live.now client.new }
    {
        self.wait_for(client, NOTES, number)?;
        let note = self.read(client, NOTES, number)?;
        client.transfer(NOTES.number, &note).ok()?;
        self.catch_up(client)?;
        let post = self.read(client, POSTS, number)?;
        Some(seen(&post))
    }

    /// Cleo reads each post behind a barrier. It tells how many she saw.
    pub fn cleo(&self, mut client: Client) -> (Client, Option<u64>)
        requires { IsOf self.now.live.now client }
        ensures { IsOf self.now.live.now result.0 }
    {
        let mut posts = Some(0);
        for number in 1..=HOW_MANY {
            posts = sum(posts, self.read_behind_barrier(&mut client, number));
        }
        (client, posts)
    }

    // Dan waits for a question, and reads it.
    fn hear(&self, client: &mut Client, number: u64) -> Option<u64>
        requires { IsOf self.now.live.now client.old }
        ensures { IsOf self.now.live.now client.new }
    {
        self.wait_for(client, ASKED, number)?;
        let question = self.read(client, ASKED, number)?;
        Some(seen(&question))
    }

    /// Dan brings each post to the others, once Ben has asked for it. It tells how many questions he heard.
    pub fn dan(&self, mut client: Client) -> (Client, Option<u64>)
        requires { IsOf self.now.live.now client }
        ensures { IsOf self.now.live.now result.0 }
    {
        let mut heard = Some(0);
        for number in 1..=HOW_MANY {
            heard = sum(heard, self.hear(&mut client, number));
            self.bring(&mut client, POSTS, number, AWAY);
        }
        (client, heard)
    }
}
