ghost use Rattle.std.specs.Prelude.{◌≡◌, [], true, IfOk};
ghost use Rattle.anti_queue.specs.QueueStates.{its_start, QueueStands};
ghost use Rattle.anti_kind.specs.Machines.{StandsFor};
ghost use Rattle.anti_kind.specs.Objects.{store};
ghost use Rattle.anti_kind.specs.Store.{Store, is_replica};

use crate::made::sub;
use crate::steps::{Asked, Step, Told, assert_steps};
use anti_ids::NoMemory;
use anti_queue::Queue;
use std::alloc::Global;

/// The store 0, of which the only replica is in region 0, with two subscriptions to the channel n. It hands a message out twice at
/// most.
#[tactic(auto, using(crate::proofs::Subscribed::queue_starts))]
pub fn queue(alloc: Global) -> Result<Queue, NoMemory>
    ensures fresh { IfOk result (λ m. StandsFor (its_start m) (QueueStands m) []) }
    ensures here { IfOk result (λ m. (s : Store) × (its_start m ≡ store s) × (s.number ≡ 0) × (is_replica s 0 ≡ true)) }
{
    let Ok(first) = sub(b"n") else {
        return Err(NoMemory);
    };
    let Ok(second) = sub(b"n") else {
        return Err(NoMemory);
    };
    Queue::new(alloc, 0, &[0], &[first, second], 2)
}

// Two messages on the channel, of which neither replaces the other, and one on another: each goes out once, to the one subscription or the
// other.
static SHARED: [Step; 18] = [
    Step::Call(Asked::Pull(0), Told::Needs(2), 0, 0),
    Step::Call(Asked::Write(b"n", b"a", &[]), Told::Wrote(b"n#1", 1), 1, 1),
    Step::Call(Asked::Write(b"m", b"x", &[]), Told::Wrote(b"m#1", 2), 2, 2),
    Step::Call(
        Asked::Write(b"n", b"b", &[]),
        Told::Kept(b"n#2", 3, &[]),
        3,
        3,
    ),
    Step::Call(Asked::Pull(0), Told::NotNow, 3, 3),
    Step::Call(Asked::Ship(2, 1), Told::Moved, 4, 2),
    Step::Call(Asked::Pull(0), Told::NotNow, 4, 2),
    Step::Call(Asked::Ship(1, 1), Told::Moved, 5, 1),
    Step::Call(Asked::Ack(1), Told::NotNow, 5, 1),
    Step::Call(Asked::Pull(0), Told::Pulled(b"n#1", 1), 6, 2),
    Step::Call(Asked::Pull(1), Told::NotNow, 6, 2),
    Step::Call(Asked::Ship(3, 1), Told::Moved, 7, 1),
    Step::Call(Asked::Pull(1), Told::Pulled(b"n#2", 3), 8, 2),
    Step::Call(Asked::Pull(0), Told::NotNow, 8, 2),
    Step::Call(Asked::Pull(1), Told::NotNow, 8, 2),
    Step::Call(Asked::Pull(2), Told::NotNow, 8, 2),
    Step::Call(Asked::Repull(1, 3), Told::NotNow, 8, 2),
    Step::Call(Asked::Poll(b"n#1"), Told::NotNow, 8, 2),
];

#[test]
fn each_message_goes_to_one_subscription(rt: HostRuntime) {
    assert_steps(&rt, rt.alloc(), queue(rt.alloc()), &SHARED);
}

// A message that is given back twice, and one that is done.
static GIVEN_BACK: [Step; 15] = [
    Step::Call(Asked::Write(b"n", b"a", &[]), Told::Wrote(b"n#1", 1), 1, 1),
    Step::Call(Asked::Write(b"n", b"b", &[]), Told::Wrote(b"n#2", 2), 2, 2),
    Step::Call(Asked::Ship(2, 1), Told::Moved, 3, 1),
    Step::Call(Asked::Ship(1, 1), Told::Moved, 4, 0),
    Step::Call(Asked::Pull(0), Told::Pulled(b"n#1", 1), 5, 1),
    Step::Call(Asked::Nack(1), Told::Done, 6, 0),
    Step::Call(Asked::Nack(1), Told::NotNow, 6, 0),
    Step::Call(Asked::Pull(1), Told::Pulled(b"n#1", 1), 7, 1),
    Step::Call(Asked::Nack(1), Told::Done, 8, 0),
    Step::Call(Asked::Pull(0), Told::Pulled(b"n#2", 2), 9, 1),
    Step::Call(Asked::Ack(2), Told::Done, 10, 0),
    Step::Call(Asked::Ack(2), Told::NotNow, 10, 0),
    Step::Call(Asked::Nack(2), Told::NotNow, 10, 0),
    Step::Call(Asked::Pull(0), Told::NotNow, 10, 0),
    Step::Call(Asked::Pull(1), Told::NotNow, 10, 0),
];

#[test]
fn a_message_comes_again_until_it_is_done_or_set_aside(rt: HostRuntime) {
    assert_steps(&rt, rt.alloc(), queue(rt.alloc()), &GIVEN_BACK);
}
