// Services that call each other and send to each other, through the top call, and messages that start no process.
ghost use Rattle.std.specs.Prelude.{IsTrue};
ghost use Rattle.anti_app.specs.Sound.{is_sound};

use crate::call_rows::{ENDED, PLAYED, assert_at, assert_texts};
use crate::run_rows::{PlayedRun, run_of};
use anti_app::App;
use anti_baggage::Baggage;
use anti_ids::{Bytes, Copies, Name};
use anti_kind::{Entry, Handle, Message, Reply};
use anti_proc::{ProcFault, Process};
use std::alloc::Global;

// A service `c` that asks and a service `d` that tells, in one region with one store.
macro_rules! asking {
    ($choices:literal, $ask:literal, $tell:literal) => {
        concat!(
            "regions = ['us']
choices = [",
            $choices,
            "]
store = [{name = 's', kind = 'kv', replicas = ['us']}]
request = [{service = 'c', handler = 'ask'}]
[[service]]
name = 'c'
region = 'us'
handler = [{name = 'ask', body = [",
            $ask,
            "]}]
[[service]]
name = 'd'
region = 'us'
handler = [{name = 'tell', body = [",
            $tell,
            "]}]"
        )
    };
}

// A call that is delivered three times, and taken once.
const REPEATED: &str = "regions = ['us']
choices = ['take c 1', 'go c.1', 'repost d 1', 'repost d 1', 'take d 1', 'go d.4', 'go c.1', 'take d 1']
request = [{service = 'c', handler = 'ask'}]
[[service]]
name = 'c'
region = 'us'
handler = [{name = 'ask', body = ['call d tell hi as y']}]
[[service]]
name = 'd'
region = 'us'
handler = [{name = 'tell', body = ['reply $in']}]";

// A handler that calls itself, as deep as a message may be.
const DEEP: &str = "regions = ['us']
choices = ['finish']
request = [{service = 'd', handler = 'tell'}]
[[service]]
name = 'c'
region = 'us'
handler = [{name = 'ask', body = ['call d tell hi as y']}]
[[service]]
name = 'd'
region = 'us'
handler = [{name = 'tell', body = ['call d tell x as y']}]";

// Nine requests, each of which sends 256 messages to one inbox.
const FULL: &str = "regions = ['us']
choices = ['finish']
request = [{service = 'd', handler = 'tell'}, {service = 'd', handler = 'tell'}, {service = 'd', handler = 'tell'}, {service = 'd', handler = 'tell'}, {service = 'd', handler = 'tell'}, {service = 'd', handler = 'tell'}, {service = 'd', handler = 'tell'}, {service = 'd', handler = 'tell'}, {service = 'd', handler = 'tell'}]
[[service]]
name = 'c'
region = 'us'
handler = [{name = 'ask', body = []}]
[[service]]
name = 'd'
region = 'us'
handler = [{name = 'tell', body = ['repeat 16', 'repeat 16', 'send c ask x', 'end', 'end']}]";

// Documents with calls and sends that end, and the record of each.
static RECORDS: [(&str, &str); 4] = [
    (
        REPEATED,
        "record 1
1 c.1 c.1/1 take 1 = got 1 request ask 0 \"\" 1;
2 d.1 c.1/1 post call tell 1 \"hi\" 1; = posted 1
3 d.2 ~0 repost 1 = done
4 d.3 ~0 repost 1 = done
5 d.4 d.4/1 take 1 = got 1 call tell 1 \"hi\" 1;
6 d.5 d.4/1 post reply 1 \"hi\" 1; = done
7 d.6 c.1/1 takereply 1 = got \"hi\" 1;
wait 8 take d 1
process c.1 c ask fine
process d.4 d tell fine
end 7
",
    ),
    // the lineage goes with the call and comes back with the reply
    (
        asking!(
            "'take c 1', 'go c.1', 'go c.1', 'take d 1', 'go d.2', 'go d.2', 'go c.1', 'go c.1'",
            "'write s k a', 'call d tell hi as y', 'write s $y b'",
            "'write s j $in', 'reply j2'"
        ),
        "record 1
1 c.1 c.1/1 take 1 = got 1 request ask 0 \"\" 1;
2 s.1 c.1/1 write k \"a\" 1; = k@1
3 d.1 c.1/1 post call tell 1 \"hi\" 1;s/k@1 = posted 1
4 d.2 d.2/1 take 1 = got 1 call tell 1 \"hi\" 1;s/k@1
5 s.2 d.2/1 write j \"hi\" 1;s/k@1 = j@2
6 d.3 d.2/1 post reply 1 \"j2\" 1;s/k@1,s/j@2 = done
7 d.4 c.1/1 takereply 1 = got \"j2\" 1;s/k@1,s/j@2
8 s.3 c.1/1 write j2 \"b\" 1;s/k@1,s/j@2 = j2@3
process c.1 c ask fine
process d.2 d tell fine
end 8
",
    ),
    // two sends, of which the later is taken first, and reposts before and after
    (
        asking!(
            "'take c 1', 'go c.1', 'go c.1', 'take d 2', 'repost d 2', 'take d 2', 'take d 1', 'repost d 1', 'take d 1', 'repost d 3'",
            "'send d tell one', 'send d tell two'",
            "'reply $in'"
        ),
        "record 1
1 c.1 c.1/1 take 1 = got 1 request ask 0 \"\" 1;
2 d.1 c.1/1 post send tell 1 \"one\" 1; = posted 1
3 d.2 c.1/1 post send tell 1 \"two\" 1; = posted 2
4 d.3 d.3/1 take 2 = got 2 send tell 1 \"two\" 1;
5 d.4 ~0 repost 2 = done
6 d.5 d.5/1 take 1 = got 1 send tell 1 \"one\" 1;
7 d.6 ~0 repost 1 = done
wait 6 take d 2
wait 9 take d 1
wait 10 repost d 3
process c.1 c ask fine
process d.3 d tell fine
process d.5 d tell fine
end 7
",
    ),
    // a handler that ends for a bad key replies with what was set by then
    (
        asking!(
            "'take c 1', 'go c.1', 'take d 1', 'go d.2', 'go c.1', 'go c.1'",
            "'call d tell x.y as y', 'write s $y v'",
            "'reply no', 'write s $in v'"
        ),
        "record 1
1 c.1 c.1/1 take 1 = got 1 request ask 0 \"\" 1;
2 d.1 c.1/1 post call tell 1 \"x.y\" 1; = posted 1
3 d.2 d.2/1 take 1 = got 1 call tell 1 \"x.y\" 1;
4 d.3 d.2/1 post reply 1 \"no\" 1; = done
5 d.4 c.1/1 takereply 1 = got \"no\" 1;
6 s.1 c.1/1 write no \"v\" 1; = no@1
process c.1 c ask fine
process d.2 d tell badkey
end 6
",
    ),
];

// Documents whose replies bring nothing or are still to come, and the record of each.
static SHORT_REPLIES: [(&str, &str); 3] = [
    // `stop` before the reply, which then brings nothing, and `nack`, which replies too
    (
        asking!(
            "'take c 1', 'go c.1', 'take d 1', 'go d.2', 'go d.2', 'go c.1', 'go c.1'",
            "'call d tell k as y', 'write s j $y'",
            "'write s $in v', 'reply $in', 'stop'"
        ),
        "record 1
1 c.1 c.1/1 take 1 = got 1 request ask 0 \"\" 1;
2 d.1 c.1/1 post call tell 1 \"k\" 1; = posted 1
3 d.2 d.2/1 take 1 = got 1 call tell 1 \"k\" 1;
4 s.1 d.2/1 write k \"v\" 1; = k@1
5 d.3 d.2/2 post reply 1 \"k\" 1; = done
6 d.4 c.1/1 takereply 1 = got \"k\" 1;
7 s.2 c.1/1 write j \"k\" 1; = j@2
process c.1 c ask fine
process d.2 d tell fine
end 7
",
    ),
    (
        asking!(
            "'take c 1', 'go c.1', 'take d 1', 'go c.1', 'go d.2', 'go d.2'",
            "'call d tell k as y'",
            "'nack', 'reply never'"
        ),
        "record 1
1 c.1 c.1/1 take 1 = got 1 request ask 0 \"\" 1;
2 d.1 c.1/1 post call tell 1 \"k\" 1; = posted 1
3 d.2 d.2/1 take 1 = got 1 call tell 1 \"k\" 1;
4 d.3 d.2/1 post reply 1 \"\" 1; = done
wait 4 go c.1
wait 6 go d.2
process c.1 c ask open
process d.2 d tell fine
end 4
",
    ),
    // a call that is still to be answered, whose handler has its reply still to post
    (
        asking!(
            "'take c 1', 'go c.1', 'take d 1'",
            "'call d tell k as y'",
            ""
        ),
        "record 1
1 c.1 c.1/1 take 1 = got 1 request ask 0 \"\" 1;
2 d.1 c.1/1 post call tell 1 \"k\" 1; = posted 1
3 d.2 d.2/1 take 1 = got 1 call tell 1 \"k\" 1;
process c.1 c ask open
process d.2 d tell open
end 3
",
    ),
];

#[test]
fn services_call_each_other(rt: HostRuntime) {
    assert_texts(&rt, rt.alloc(), &PLAYED, &RECORDS);
    assert_texts(&rt, rt.alloc(), &PLAYED, &SHORT_REPLIES);
}

// The end of the record of a chain of calls, of which the last would be too deep.
const TOO_DEEP: &str = "process d.1 d tell fine
process d.3 d tell fine
process d.5 d tell fine
process d.7 d tell fine
process d.9 d tell fine
process d.11 d tell fine
process d.13 d tell fine
process d.15 d tell fine
process d.17 d tell depth
end 33
";

// The end of the record of an inbox that is full before the ninth request has sent a message.
const NINTH_SENDS_NONE: &str = "process d.7 d tell fine
process d.8 d tell fine
process d.9 d tell store c
end 4105
";

// Documents with long records, and the end of each.
static ENDS: [(&str, &str); 2] = [(DEEP, TOO_DEEP), (FULL, NINTH_SENDS_NONE)];

#[test]
fn messages_are_not_too_deep_and_an_inbox_fills(rt: HostRuntime) {
    assert_texts(&rt, rt.alloc(), &ENDED, &ENDS);
}

// What a message states: the handler that it names, its depth and its baggage.
type Stated<'a> = (&'a str, u32, &'a str);

// What the call that is taken in a run might state, and why it then starts no process. `None` where it starts one.
static CALLS: [(Stated, Option<ProcFault>); 5] = [
    (("tell", 1, "1;"), None),
    (("tell", 8, "1;"), None),
    (("none", 1, "1;"), Some(ProcFault::Foreign)),
    (("tell", 9, "1;"), Some(ProcFault::Foreign)),
    (("tell", 1, "0;"), Some(ProcFault::Foreign)),
];

// The message, which states this in place of what it states. `None` where memory runs out.
fn changed(alloc: Global, message: &Message, stated: Stated) -> Option<Message> {
    let (handler, depth, baggage) = stated;
    let Ok(handler) = Name::new(handler.as_bytes()) else {
        return None;
    };
    let mut text = Bytes::new(alloc);
    let Ok(()) = text.append(baggage.as_bytes()) else {
        return None;
    };
    let Ok(value) = message.value.copy(alloc) else {
        return None;
    };
    Some(Message {
        kind: message.kind,
        to: message.to,
        depth,
        handler,
        value,
        baggage: Baggage::from_text(text),
    })
}

// The entry, whose message states this. `None` where it takes none or memory runs out.
fn taken(alloc: Global, entry: &Entry, stated: Stated) -> Option<Entry> {
    let Reply::Got { number, message } = &entry.reply else {
        return None;
    };
    let Some(message) = changed(alloc, message.get(), stated) else {
        return None;
    };
    let Ok(message) = Handle::new(alloc, message) else {
        return None;
    };
    let Ok(call) = entry.call.copy(alloc) else {
        return None;
    };
    Some(Entry {
        stamp: entry.stamp,
        object: entry.object,
        place: entry.place,
        seat: entry.seat,
        actor: entry.actor,
        span: entry.span,
        call,
        reply: Reply::Got {
            number: *number,
            message,
        },
    })
}

// Why an entry starts no process. `None` where it starts one.
#[tactic(auto, using(anti_app::proofs::Runnable::can_run))]
fn fault_of(alloc: Global, app: &App, entry: &Entry) -> Option<ProcFault>
    requires { IsTrue (is_sound app.now) }
{
    match Process::born(alloc, app, entry) {
        Ok(_) => None,
        Err(fault) => Some(fault),
    }
}

// Whether this fault comes where the call that is taken in the run states this. `false` where memory runs out, too.
fn is_fault_in(alloc: Global, run: &PlayedRun, stated: Stated, fault: Option<ProcFault>) -> bool
    requires { IsTrue (is_sound run.now.app) }
{
    let Some(entry) = run.trace.as_slice().get(4) else {
        return false;
    };
    match taken(alloc, entry, stated) {
        Some(entry) => fault_of(alloc, &run.app, &entry) == fault,
        None => false,
    }
}

// The same of the run of the repeated call.
fn is_fault(alloc: Global, stated: Stated, fault: Option<ProcFault>) -> bool {
    match run_of(alloc, REPEATED.as_bytes()) {
        Some(run) => is_fault_in(alloc, &run, stated, fault),
        None => false,
    }
}

#[test]
fn a_foreign_message_starts_no_process(rt: HostRuntime) {
    for (place, (stated, fault)) in CALLS.iter().enumerate() {
        assert_at(&rt, place, is_fault(rt.alloc(), *stated, *fault));
    }
}

// What the message of a reply might state, and why the process that asked then does not take it. `None` where it takes it.
static REPLIES: [(Stated, Option<ProcFault>); 5] = [
    (("tell", 1, "1;"), None),
    (("tell", 1, ""), Some(ProcFault::Foreign)),
    (("tell", 1, "1;s/k"), Some(ProcFault::Foreign)),
    (("tell", 1, "1;s/k@1"), Some(ProcFault::Foreign)),
    (("tell", 1, "1;s/k@1,"), Some(ProcFault::Foreign)),
];

// Why a process that an entry starts does not take a reply. `None` where it takes it.
#[tactic(auto, using(anti_app::proofs::Runnable::can_run))]
fn refusal_of(alloc: Global, app: &App, entry: &Entry, reply: &Reply) -> Option<ProcFault>
    requires { IsTrue (is_sound app.now) }
{
    match Process::born(alloc, app, entry) {
        Ok(mut process) => process.feed(app, 9, reply).err(),
        Err(_) => Some(ProcFault::NoMemory),
    }
}

// Whether this refusal comes where the reply to the first process of a run states this. `false` where memory runs out, too.
fn is_refusal_in(alloc: Global, run: &PlayedRun, stated: Stated, fault: Option<ProcFault>) -> bool
    requires { IsTrue (is_sound run.now.app) }
{
    let [first, .., last] = run.trace.as_slice() else {
        return false;
    };
    match taken(alloc, last, stated) {
        Some(entry) => refusal_of(alloc, &run.app, first, &entry.reply) == fault,
        None => false,
    }
}

// The same of the run of the repeated call, whose document has no store, and whose last entry takes the reply.
fn is_refusal(alloc: Global, stated: Stated, fault: Option<ProcFault>) -> bool {
    match run_of(alloc, REPEATED.as_bytes()) {
        Some(run) => is_refusal_in(alloc, &run, stated, fault),
        None => false,
    }
}

#[test]
fn a_foreign_reply_is_not_taken(rt: HostRuntime) {
    for (place, (stated, fault)) in REPLIES.iter().enumerate() {
        assert_at(&rt, place, is_refusal(rt.alloc(), *stated, *fault));
    }
}
