ghost use Rattle.std.specs.Prelude.{◌≡◌, IfSome};
ghost use Rattle.anti_kind.specs.Starts.{IsStart};
ghost use Rattle.anti_kind.specs.Objects.{inbox};

use crate::made::message;
use crate::steps::{Asked, Step, Told, assert_steps};
use anti_inbox::Inbox;
use anti_kind::{Brought, MessageKind, Messages};
use std::alloc::Global;

// One request, with the letter q. `None` where memory runs out.
fn requests(alloc: Global) -> Option<Messages>
    ensures { IfSome result (λ r. IsStart (inbox r.items)) }
{
    let Some(request) = message(alloc, MessageKind::Request, 0, b'q') else {
        return None;
    };
    let mut requests = Messages::new(alloc);
    let Ok(()) = requests.reserve(1) else {
        return None;
    };
    requests.put(request);
    Some(requests)
}

// Messages that are posted, delivered again, taken and replied to, where there is one request at first.
static STEPS: [Step; 21] = [
    Step::Call(
        Asked::Post(MessageKind::Call, 0, b'c'),
        Told::Posted(2),
        1,
        4,
    ),
    Step::Call(
        Asked::Post(MessageKind::Send, 0, b's'),
        Told::Posted(3),
        2,
        5,
    ),
    Step::Call(
        Asked::Post(MessageKind::Request, 0, b'x'),
        Told::NotNow,
        2,
        5,
    ),
    Step::Call(Asked::Post(MessageKind::Reply, 2, b'x'), Told::NotNow, 2, 5),
    Step::Call(Asked::Repost(2), Told::Brings(Brought::Delivered), 2, 5),
    Step::Call(Asked::Repost(2), Told::Done, 3, 5),
    Step::Call(Asked::Take(0), Told::NotNow, 3, 5),
    Step::Call(Asked::Take(2), Told::Got(2, b'c'), 4, 4),
    Step::Call(Asked::Repost(2), Told::Done, 5, 4),
    Step::Call(Asked::Take(3), Told::NotNow, 5, 4),
    Step::Call(Asked::Take(2), Told::Got(3, b's'), 6, 3),
    Step::Call(Asked::TakeReply(2), Told::NotNow, 6, 3),
    Step::Call(Asked::Post(MessageKind::Reply, 3, b'x'), Told::NotNow, 6, 3),
    Step::Call(Asked::Post(MessageKind::Reply, 2, b'r'), Told::Done, 7, 2),
    Step::Call(Asked::Post(MessageKind::Reply, 2, b'x'), Told::NotNow, 7, 2),
    Step::Call(Asked::TakeReply(2), Told::Got(2, b'r'), 8, 1),
    Step::Call(Asked::TakeReply(2), Told::NotNow, 8, 1),
    Step::Call(Asked::Repost(4), Told::NotNow, 8, 1),
    Step::Call(Asked::Take(1), Told::Got(1, b'q'), 9, 0),
    Step::Call(Asked::Take(1), Told::NotNow, 9, 0),
    Step::Call(Asked::Ack(1), Told::NotNow, 9, 0),
];

#[test]
fn what_an_inbox_answers(rt: HostRuntime) {
    let alloc = rt.alloc();
    let Some(requests) = requests(alloc) else {
        panic!(rt; "no memory");
    };
    assert_steps(&rt, alloc, Inbox::new(alloc, requests), &STEPS);
}
