// A thread that writes and brings what it wrote, beside one that waits for it.
ghost use Rattle.std.specs.Prelude.{◌≡◌, ◌<◌, length};
ghost use Rattle.anti_live.specs.Clients.{IsOf};

use crate::stores::{read, ship, started, write};
use anti_live::{Client, Live};
use anti_shim::BarrierAnswer;
use std::alloc::AllocGlobal;
use std::process::Abort;
use std::sync::Wait;
use std::thread::{Threads, join};

// Writes a second version and brings both.
fn brings<R: Wait + AllocGlobal>(rt: &R, live: &Live, mut client: Client) -> (Client, bool)
    requires of { IsOf live.now client }
    requires store { 0 < length live.now.stores }
    ensures { IsOf live.now result.0 }
{
    let well = write(rt, live, &mut client, b"p2", b"b") == Some(2)
        && ship(rt, live, &mut client, 1)
        && ship(rt, live, &mut client, 2);
    (client, well)
}

// Waits until the first version is visible, and reads it.
fn waits<R: Wait + AllocGlobal>(rt: &R, live: &Live, mut client: Client) -> (Client, bool)
    requires { IsOf live.now client }
    ensures { IsOf live.now result.0 }
{
    let well = matches!(live.barrier_wait(rt, &mut client), BarrierAnswer::Clear(_))
        && read(rt, live, &mut client, b"p1") == Some(1);
    (client, well)
}

// Whether one thread reads what another brings meanwhile.
fn is_read_when_it_came<R: Threads + Wait + Sync + AllocGlobal>(rt: &R) -> bool {
    let Some((live, mut first)) = started(rt.alloc()) else {
        return false;
    };
    if write(rt, &live, &mut first, b"p1", b"a") != Some(1) || first.room() == 0 {
        return false;
    }
    let Ok(mut second) = live.split(&mut first, 0) else {
        return false;
    };
    if live.carry_in(&mut second, b"2;posts/p1@1").is_err() {
        return false;
    }
    // who waits stands first: where no thread can be made, the first closure is called last
    let ((second, read), (mut first, brought)) = join(
        rt,
        || waits(rt, &live, second),
        || brings(rt, &live, first),
    );
    live.join(&mut first, second);
    brought && read && live.close(first).is_ok()
}

#[test]
fn a_thread_waits_for_another(rt: HostRuntime) {
    assert!(&rt; is_read_when_it_came(&rt));
}
