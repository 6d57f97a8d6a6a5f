// What `session` and `doctor` write of runs.
use crate::call_rows::{CallRow, STEP, assert_texts, served};

// A call of `session`, and one of `doctor`.
const SESSION: CallRow = CallRow {
    word: b"session",
    ..STEP
};

const DOCTOR: CallRow = CallRow {
    word: b"doctor",
    ..STEP
};

// A document with a store in two regions, a service `c` in the first, which a request asks, and a service `d` in the second.
macro_rules! asking {
    ($choices:literal, $ask:literal, $get:literal) => {
        concat!(
            "regions = ['us', 'eu']
choices = [",
            $choices,
            "]
store = [{name = 's', kind = 'kv', replicas = ['us', 'eu']}]
request = [{service = 'c', handler = 'ask'}]
[[service]]
name = 'c'
region = 'us'
handler = [{name = 'ask', body = [",
            $ask,
            "]}]
[[service]]
name = 'd'
region = 'eu'
handler = [{name = 'get', body = [",
            $get,
            "]}]
"
        )
    };
}

static SESSIONS: [(&str, &str); 8] = [
    // the callee waits for the write of its caller, so all reads are one story
    (
        asking!(
            "'finish'",
            "'write s k a', 'call d get k as y', 'barrier', 'read s k as z'",
            "'barrier', 'read s $in as x', 'transfer x', 'reply $x'"
        ),
        "sessions 1
session c.1/1 order s.1 s.5 s.7
end 12
",
    ),
    // it does not, and its read comes first
    (
        asking!(
            "'finish'",
            "'write s k a', 'call d get k as y', 'barrier', 'read s k as z'",
            "'read s $in as x', 'transfer x', 'reply $x'"
        ),
        "sessions 1
session c.1/1 unguarded s.2
end 11
",
    ),
    // a call that is not answered yet
    (
        asking!(
            "'take c 1', 'go c.1', 'go c.1', 'take d 1', 'go d.2'",
            "'write s k a', 'call d get k as y'",
            "'read s $in as x', 'transfer x', 'reply $x'"
        ),
        "sessions 1
end 5
",
    ),
    // a message that nobody waits for
    (
        asking!(
            "'finish'",
            "'send d get k', 'read s k as z'",
            "'read s $in as x'"
        ),
        "sessions 1
session c.1/1 order s.1
end 5
",
    ),
    // two spans of one process
    (
        asking!("'finish'", "'read s k as x', 'root', 'read s k as y'", ""),
        "sessions 1
session c.1/1 order s.1
session c.1/2 order s.2
end 3
",
    ),
    // what the callee reads in a later span is in no session
    (
        asking!(
            "'finish'",
            "'call d get k as y', 'read s k as z'",
            "'read s k as w', 'root', 'read s k as x', 'reply $x'"
        ),
        "sessions 1
session c.1/1 order s.3
end 8
",
    ),
    // calls of the callee
    (
        "regions = ['us']
choices = ['finish']
store = [{name = 's', kind = 'kv', replicas = ['us']}]
request = [{service = 'c', handler = 'ask'}]
[[service]]
name = 'c'
region = 'us'
handler = [{name = 'ask', body = ['call d get k as y', 'read s k as z']}]
[[service]]
name = 'd'
region = 'us'
handler = [{name = 'get', body = ['call e more k as w', 'read s k as x', 'reply $x']}]
[[service]]
name = 'e'
region = 'us'
handler = [{name = 'more', body = ['read s k as v', 'reply $v']}]
",
        "sessions 1
session c.1/1 order s.1 s.2 s.3
end 12
",
    ),
    // nothing is read
    (
        served!("'finish'", "'write s k a'", "'nack'"),
        "sessions 1
end 4
",
    ),
];

static DIAGNOSES: [(&str, &str); 6] = [
    // the note comes before the post
    (
        "regions = ['us', 'eu']
choices = ['take poster 1', 'go poster.1', 'go poster.1', 'ship notes eu 1', 'pull fans', 'go notes.3', 'go notes.3']
store = [{name = 'posts', kind = 'kv', replicas = ['eu']}, {name = 'notes', kind = 'queue', replicas = ['eu']}]
sub = [{name = 'fans', store = 'notes', channel = 'n', service = 'reader', handler = 'note'}]
request = [{service = 'poster', handler = 'post', value = 'hello'}]
[[service]]
name = 'poster'
region = 'us'
handler = [{name = 'post', body = ['write posts p1 $in', 'write notes n p1']}]
[[service]]
name = 'reader'
region = 'eu'
handler = [{name = 'note', body = ['read posts $in as x']}]
",
        "doctor 1
span notes.3/1 misses posts.2:posts.1
end 7
",
    ),
    // a lineage loses a write, and still an order explains the read
    (
        served!(
            "'take w 1', 'go w.1', 'ship s eu 1', 'take w 1', 'go w.2', 'go w.2'",
            "'write s k a'",
            "'read s k as p', 'write s j b'"
        ),
        "doctor 1
span w.2/1 sound s.1 s.3 s.4
end 6
",
    ),
    (
        served!(
            "'take w 1', 'go w.1', 'go w.1'",
            "'write s k a', 'read s k as x'",
            "'nack'"
        ),
        "doctor 1
span w.1/1 misses s.2:s.1
end 3
",
    ),
    // of two writes that a read missed the later one, and of two reads that missed it the first
    (
        served!(
            "'take w 1', 'go w.1', 'go w.1', 'go w.1', 'go w.1', 'go w.1', 'go w.1'",
            "'write s k a', 'write s k b', 'write s j c', 'read s k as x', 'read s j as y', 'read s k as z'",
            "'nack'"
        ),
        "doctor 1
span w.1/1 misses s.4:s.2 s.5:s.3
end 7
",
    ),
    // through a message
    (
        asking!(
            "'finish'",
            "'write s k a', 'call d get k as y', 'barrier', 'read s k as z'",
            "'read s $in as x', 'transfer x', 'reply $x'"
        ),
        "doctor 1
span c.1/1 sound s.1 s.5
span d.2/1 misses s.2:s.1
end 11
",
    ),
    // no barrier stood there, and all is well by luck
    (
        served!(
            "'take w 1', 'go w.1', 'ship s eu 1', 'go w.1'",
            "'write s k a', 'read s k as x'",
            "'nack'"
        ),
        "doctor 1
span w.1/1 sound s.1 s.3
end 4
",
    ),
];

#[test]
fn sessions_are_told(rt: HostRuntime) {
    assert_texts(&rt, rt.alloc(), &SESSION, &SESSIONS);
}

#[test]
fn missed_writes_are_told(rt: HostRuntime) {
    assert_texts(&rt, rt.alloc(), &DOCTOR, &DIAGNOSES);
}
