ghost use Rattle.std.specs.Prelude.{◌≡◌, [], true, IfOk};
ghost use Rattle.anti_topic.specs.TopicStates.{its_start, TopicStands};
ghost use Rattle.anti_kind.specs.Machines.{StandsFor};
ghost use Rattle.anti_kind.specs.Objects.{store};
ghost use Rattle.anti_kind.specs.Store.{Store, is_replica};

use crate::made::sub;
use crate::steps::{Asked, Step, Told, assert_steps};
use anti_ids::NoMemory;
use anti_topic::Topic;
use std::alloc::Global;

/// The store 0, of which the only replica is in region 0, with two subscriptions to the channel n.
#[tactic(auto, using(crate::proofs::Subscribed::topic_starts))]
pub fn topic(alloc: Global) -> Result<Topic, NoMemory>
    ensures fresh { IfOk result (λ m. StandsFor (its_start m) (TopicStands m) []) }
    ensures here { IfOk result (λ m. (s : Store) × (its_start m ≡ store s) × (s.number ≡ 0) × (is_replica s 0 ≡ true)) }
{
    let Ok(first) = sub(b"n") else {
        return Err(NoMemory);
    };
    let Ok(second) = sub(b"n") else {
        return Err(NoMemory);
    };
    Topic::new(alloc, 0, &[0], &[first, second])
}

// Two cells, of which neither replaces the other. The later is shipped first.
static IN_ORDER: [Step; 16] = [
    Step::Call(Asked::Write(b"n", b"a", &[]), Told::Wrote(b"n#1", 1), 1, 1),
    Step::Call(
        Asked::Write(b"n", b"b", &[]),
        Told::Kept(b"n#2", 2, &[]),
        2,
        2,
    ),
    Step::Call(Asked::Write(b"n#1", b"x", &[]), Told::NotNow, 2, 2),
    Step::Call(Asked::Ship(2, 1), Told::Moved, 3, 1),
    Step::Call(Asked::Pull(0), Told::NotNow, 3, 1),
    Step::Call(Asked::Poll(b"n#2"), Told::Rows(&[(b"n#2", 2, b"b")]), 4, 1),
    Step::Call(Asked::Poll(b"n#1"), Told::Rows(&[(b"n#1", 0, b"")]), 5, 1),
    Step::Call(Asked::Ship(1, 1), Told::Moved, 6, 0),
    Step::Call(Asked::Repull(0, 1), Told::NotNow, 6, 0),
    Step::Call(Asked::Pull(0), Told::Pulled(b"n#1", 1), 7, 0),
    Step::Call(Asked::Repull(0, 1), Told::Pulled(b"n#1", 1), 8, 0),
    Step::Call(Asked::Repull(0, 2), Told::NotNow, 8, 0),
    Step::Call(Asked::Pull(0), Told::Pulled(b"n#2", 2), 9, 0),
    Step::Call(Asked::Pull(0), Told::NotNow, 9, 0),
    Step::Call(Asked::Repull(0, 1), Told::Pulled(b"n#1", 1), 10, 0),
    Step::Call(Asked::Ack(1), Told::NotNow, 10, 0),
];

#[test]
fn a_pull_waits_for_the_cell_that_is_next(rt: HostRuntime) {
    assert_steps(&rt, rt.alloc(), topic(rt.alloc()), &IN_ORDER);
}

// Two cells of the channel and one of another, which each subscription pulls.
static FOR_EACH: [Step; 15] = [
    Step::Call(Asked::Write(b"n", b"a", &[]), Told::Wrote(b"n#1", 1), 1, 1),
    Step::Call(Asked::Write(b"m", b"x", &[]), Told::Wrote(b"m#1", 2), 2, 2),
    Step::Call(Asked::Write(b"n", b"b", &[]), Told::Wrote(b"n#2", 3), 3, 3),
    Step::Call(Asked::Ship(1, 1), Told::Moved, 4, 2),
    Step::Call(Asked::Ship(2, 1), Told::Moved, 5, 1),
    Step::Call(Asked::Ship(3, 1), Told::Moved, 6, 0),
    Step::Call(Asked::Pull(0), Told::Pulled(b"n#1", 1), 7, 0),
    Step::Call(Asked::Pull(0), Told::Pulled(b"n#2", 3), 8, 0),
    Step::Call(Asked::Pull(0), Told::NotNow, 8, 0),
    Step::Call(Asked::Repull(1, 1), Told::NotNow, 8, 0),
    Step::Call(Asked::Pull(1), Told::Pulled(b"n#1", 1), 9, 0),
    Step::Call(Asked::Pull(1), Told::Pulled(b"n#2", 3), 10, 0),
    Step::Call(Asked::Pull(1), Told::NotNow, 10, 0),
    Step::Call(Asked::Repull(1, 2), Told::NotNow, 10, 0),
    Step::Call(Asked::Pull(2), Told::NotNow, 10, 0),
];

#[test]
fn each_subscription_gets_each_cell(rt: HostRuntime) {
    assert_steps(&rt, rt.alloc(), topic(rt.alloc()), &FOR_EACH);
}
