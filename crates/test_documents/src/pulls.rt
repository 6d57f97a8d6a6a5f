// Queues, topics and their subscriptions through the top call: what a pull starts, and what becomes of the message.
use crate::call_rows::{ENDED, PLAYED, assert_texts};

// A poster in one region writes a post and a note on it; the note starts a reader in the other region.
macro_rules! noting {
    ($choices:literal, $body:literal) => {
        concat!(
            "regions = ['us', 'eu']
choices = ['take poster 1', 'go poster.1', 'go poster.1', 'ship notes eu 1', 'pull fans', ",
            $choices,
            "]
store = [{name = 'posts', kind = 'kv', replicas = ['eu']}, {name = 'notes', kind = 'queue', replicas = ['eu']}]
sub = [{name = 'fans', store = 'notes', channel = 'n', service = 'reader', handler = 'note'}]
request = [{service = 'poster', handler = 'post', value = 'hello'}]
[[service]]
name = 'poster'
region = 'us'
handler = [{name = 'post', body = ['write posts p1 $in', 'write notes n p1']}]
[[service]]
name = 'reader'
region = 'eu'
handler = [{name = 'note', body = [",
            $body,
            "]}]"
        )
    };
}

/// A reader whose barrier waits for the post.
pub const BARRIER_WAITS: &str = noting!(
    "'go notes.3', 'ship posts eu 1', 'go notes.3', 'go notes.3', 'go notes.3', 'go notes.3'",
    "'barrier', 'read posts $in as x'"
);

// One message, which is given back as often as it is pulled.
macro_rules! given_back {
    ($tries:literal) => {
        concat!(
            "regions = ['us']
choices = ['finish']
store = [{name = 'q', kind = 'queue', replicas = ['us'], tries = ",
            $tries,
            "}]
sub = [{name = 'jobs', store = 'q', channel = 'n', service = 'w', handler = 'work'}]
request = [{service = 'w', handler = 'put'}]
service = [{name = 'w', region = 'us', handler = [{name = 'put', body = ['write q n v']}, {name = 'work', body = ['nack']}]}]"
        )
    };
}

// Two subscriptions of one channel of a queue, of which one gives back what it gets.
const COMPETING: &str = "regions = ['us']
choices = ['take w 1', 'go w.1', 'go w.1', 'ship q us 2', 'pull two', 'pull one', 'ship q us 1', 'pull one', 'pull two', 'go q.6', 'pull one', 'go q.8', 'pull two', 'go q.4', 'pull one']
store = [{name = 'q', kind = 'queue', replicas = ['us'], tries = 2}]
sub = [{name = 'one', store = 'q', channel = 'n', service = 'w', handler = 'back'}, {name = 'two', store = 'q', channel = 'n', service = 'w', handler = 'done'}]
request = [{service = 'w', handler = 'put'}]
service = [{name = 'w', region = 'us', handler = [{name = 'put', body = ['write q n a', 'write q n b']}, {name = 'back', body = ['nack']}, {name = 'done', body = []}]}]";

// Two subscriptions of one channel of a topic, in two regions.
const CELLS: &str = "regions = ['us', 'eu']
choices = ['take w 1', 'go w.1', 'go w.1', 'ship t us 1', 'pull here', 'pull there', 'ship t eu 2', 'pull there', 'repull there 1', 'repull here 1', 'ship t eu 1', 'pull there', 'pull there', 'repull there 2', 'pull here', 'go t.9', 'go t.9', 'go t.9']
store = [{name = 't', kind = 'topic', replicas = ['us', 'eu']}]
sub = [{name = 'here', store = 't', channel = 'n', service = 'w', handler = 'note'}, {name = 'there', store = 't', channel = 'n', service = 'v', handler = 'show'}]
request = [{service = 'w', handler = 'put'}]
[[service]]
name = 'w'
region = 'us'
handler = [{name = 'put', body = ['write t n a', 'write t n n#2']}, {name = 'note', body = []}]
[[service]]
name = 'v'
region = 'eu'
handler = [{name = 'show', body = ['barrier', 'poll t n#1 as x', 'poll t $in as y']}]";

// Two channels: the message of one gives a handler no key, that of the other starts one which stops its lineage.
const BAD_AND_GOOD: &str = "regions = ['us']
choices = ['finish']
store = [{name = 's', kind = 'kv', replicas = ['us']}, {name = 'q', kind = 'queue', replicas = ['us'], tries = 1}]
sub = [{name = 'bad', store = 'q', channel = 'b', service = 'w', handler = 'look'}, {name = 'good', store = 'q', channel = 'g', service = 'w', handler = 'wait'}]
request = [{service = 'w', handler = 'put', value = 'a.b'}]
service = [{name = 'w', region = 'us', handler = [{name = 'put', body = ['write q b $in', 'write q g $in']}, {name = 'look', body = ['read s $in as x']}, {name = 'wait', body = ['barrier', 'stop']}]}]";

// Documents with a note on a post, and the record of each.
static NOTES: [(&str, &str); 3] = [
    // the post is not there yet, and nothing waits for it
    (
        noting!("'go notes.3', 'go notes.3'", "'read posts $in as x'"),
        "record 1
1 poster.1 poster.1/1 take 1 = got 1 request post 0 \"hello\" 1;
2 posts.1 poster.1/1 write p1 \"hello\" 1; = p1@1
3 notes.1 poster.1/1 write n \"p1\" 1;posts/p1@1 = n#1@1
4 notes.2 ~0 ship eu 1 1 = moved
5 notes.3 notes.3/1 pull fans = n#1@1 \"p1\" 1;posts/p1@1
6 posts.2 notes.3/1 read eu p1 = p1@0
7 notes.4 notes.3/1 ack 1 = done
process notes.3 reader note fine
process poster.1 poster post fine
span notes.3/1 unguarded posts.2
end 7
",
    ),
    // a barrier waits for it
    (
        BARRIER_WAITS,
        "record 1
1 poster.1 poster.1/1 take 1 = got 1 request post 0 \"hello\" 1;
2 posts.1 poster.1/1 write p1 \"hello\" 1; = p1@1
3 notes.1 poster.1/1 write n \"p1\" 1;posts/p1@1 = n#1@1
4 notes.2 ~0 ship eu 1 1 = moved
5 posts.2 ~0 ship eu 1 1 = moved
5 notes.3 notes.3/1 pull fans = n#1@1 \"p1\" 1;posts/p1@1
6 posts.3 notes.3/1 look eu 1;posts/p1@1 = clear
7 notes.4 notes.3/1 look eu 1;notes/n%231@1 = clear
8 posts.4 notes.3/1 read eu p1 = p1@1 \"hello\" 1;
9 notes.5 notes.3/1 ack 1 = done
wait 6 go notes.3
process notes.3 reader note fine
process poster.1 poster post fine
span notes.3/1 order posts.1 notes.1 posts.4
end 10
",
    ),
    // dry runs name it as long as it is missing
    (
        noting!(
            "'go notes.3', 'go notes.3', 'ship posts eu 1', 'go notes.3', 'go notes.3', 'go notes.3'",
            "'dryrun', 'dryrun'"
        ),
        "record 1
1 poster.1 poster.1/1 take 1 = got 1 request post 0 \"hello\" 1;
2 posts.1 poster.1/1 write p1 \"hello\" 1; = p1@1
3 notes.1 poster.1/1 write n \"p1\" 1;posts/p1@1 = n#1@1
4 notes.2 ~0 ship eu 1 1 = moved
5 notes.3 notes.3/1 pull fans = n#1@1 \"p1\" 1;posts/p1@1
6 posts.2 notes.3/1 dry eu 1;posts/p1@1 = missing 1;posts/p1@1 unwritten 1;
7 posts.3 ~0 ship eu 1 1 = moved
7 notes.4 notes.3/1 dry eu 1;notes/n%231@1 = clear
8 posts.4 notes.3/1 dry eu 1;posts/p1@1 = clear
9 notes.5 notes.3/1 dry eu 1;notes/n%231@1 = clear
10 notes.6 notes.3/1 ack 1 = done
process notes.3 reader note fine
process poster.1 poster post fine
end 11
",
    ),
];

// Documents with subscriptions of which some give back what they get, and the record of each.
static SUBSCRIPTIONS: [(&str, &str); 6] = [
    (
        given_back!("1"),
        "record 1
1 w.1 w.1/1 take 1 = got 1 request put 0 \"\" 1;
2 q.1 w.1/1 write n \"v\" 1; = n#1@1
3 q.2 ~0 ship us 1 1 = moved
4 q.3 q.3/1 pull jobs = n#1@1 \"v\" 1;
5 q.4 q.3/1 nack 1 = done
process q.3 w work fine
process w.1 w put fine
end 5
",
    ),
    (
        given_back!("3"),
        "record 1
1 w.1 w.1/1 take 1 = got 1 request put 0 \"\" 1;
2 q.1 w.1/1 write n \"v\" 1; = n#1@1
3 q.2 ~0 ship us 1 1 = moved
4 q.3 q.3/1 pull jobs = n#1@1 \"v\" 1;
5 q.4 q.3/1 nack 1 = done
6 q.5 q.5/1 pull jobs = n#1@1 \"v\" 1;
7 q.6 q.5/1 nack 1 = done
8 q.7 q.7/1 pull jobs = n#1@1 \"v\" 1;
9 q.8 q.7/1 nack 1 = done
process q.3 w work fine
process q.5 w work fine
process q.7 w work fine
process w.1 w put fine
end 9
",
    ),
    // each message is with one subscription at a time; what was given back twice is set aside, and what is done does not come again
    (
        COMPETING,
        "record 1
1 w.1 w.1/1 take 1 = got 1 request put 0 \"\" 1;
2 q.1 w.1/1 write n \"a\" 1; = n#1@1
3 q.2 w.1/1 write n \"b\" 1;q/n%231@1 = n#2@2
4 q.3 ~0 ship us 2 1 = moved
5 q.4 q.4/1 pull two = n#2@2 \"b\" 1;q/n%231@1
6 q.5 ~0 ship us 1 1 = moved
7 q.6 q.6/1 pull one = n#1@1 \"a\" 1;
8 q.7 q.6/1 nack 1 = done
9 q.8 q.8/1 pull one = n#1@1 \"a\" 1;
10 q.9 q.8/1 nack 1 = done
11 q.10 q.4/1 ack 2 = done
wait 6 pull one
wait 9 pull two
wait 13 pull two
wait 15 pull one
process q.4 w done fine
process q.6 w back fine
process q.8 w back fine
process w.1 w put fine
end 11
",
    ),
    // each subscription gets each cell, in order, once it is in its region; a cell that it had starts a process again
    (
        CELLS,
        "record 1
1 w.1 w.1/1 take 1 = got 1 request put 0 \"\" 1;
2 t.1 w.1/1 write n \"a\" 1; = n#1@1
3 t.2 w.1/1 write n \"n%232\" 1;t/n%231@1 = n#2@2
4 t.3 ~0 ship us 1 1 = moved
5 t.4 t.4/1 pull here = n#1@1 \"a\" 1;
6 t.5 ~0 ship eu 2 1 = moved
7 t.6 t.6/1 repull here 1 = n#1@1 \"a\" 1;
8 t.7 ~0 ship eu 1 1 = moved
9 t.8 t.8/1 pull there = n#1@1 \"a\" 1;
10 t.9 t.9/1 pull there = n#2@2 \"n%232\" 1;t/n%231@1
11 t.10 t.10/1 repull there 2 = n#2@2 \"n%232\" 1;t/n%231@1
12 t.11 t.9/1 look eu 1;t/n%231@1,t/n%232@2 = clear
13 t.12 t.9/1 poll eu n#1 = n#1@1 \"a\" 1;
14 t.13 t.9/1 poll eu n#2 = n#2@2 \"n%232\" 1;t/n%231@1
wait 6 pull there
wait 8 pull there
wait 9 repull there 1
wait 15 pull here
process t.4 w note fine
process t.6 w note fine
process t.8 v show open
process t.9 v show fine
process t.10 v show open
process w.1 w put fine
span t.9/1 order t.1 t.2 t.12 t.13
end 14
",
    ),
    // a message whose handler finds no key is given back; behind `stop` a message is done in the new span
    (
        BAD_AND_GOOD,
        "record 1
1 w.1 w.1/1 take 1 = got 1 request put 0 \"a.b\" 1;
2 q.1 w.1/1 write b \"a.b\" 1; = b#1@1
3 q.2 w.1/1 write g \"a.b\" 1;q/b%231@1 = g#1@2
4 q.3 ~0 ship us 1 1 = moved
5 q.4 q.4/1 pull bad = b#1@1 \"a.b\" 1;
6 q.5 q.4/1 nack 1 = done
7 q.6 ~0 ship us 2 1 = moved
8 q.7 q.7/1 pull good = g#1@2 \"a.b\" 1;q/b%231@1
9 q.8 q.7/1 look us 1;q/b%231@1,q/g%231@2 = clear
10 q.9 q.7/2 ack 2 = done
process q.4 w look badkey
process q.7 w wait fine
process w.1 w put fine
end 10
",
    ),
    // the first message of a process that a pull started carries what the process does
    (
        "regions = ['us']
choices = ['take w 1', 'go w.1', 'ship q us 1', 'pull jobs', 'go q.3', 'take w 1', 'go w.3']
store = [{name = 'q', kind = 'queue', replicas = ['us']}]
sub = [{name = 'jobs', store = 'q', channel = 'n', service = 'w', handler = 'work'}]
request = [{service = 'w', handler = 'put'}]
service = [{name = 'w', region = 'us', handler = [{name = 'put', body = ['write q n a']}, {name = 'work', body = ['send w told $in']}, {name = 'told', body = ['barrier']}]}]",
        "record 1
1 w.1 w.1/1 take 1 = got 1 request put 0 \"\" 1;
2 q.1 w.1/1 write n \"a\" 1; = n#1@1
3 q.2 ~0 ship us 1 1 = moved
4 q.3 q.3/1 pull jobs = n#1@1 \"a\" 1;
5 w.2 q.3/1 post send told 1 \"a\" 1;q/n%231@1 = posted 2
6 w.3 w.3/1 take 1 = got 2 send told 1 \"a\" 1;q/n%231@1
7 q.4 w.3/1 look us 1;q/n%231@1 = clear
process q.3 w work open
process w.1 w put fine
process w.3 w told fine
end 7
",
    ),
];

#[test]
fn subscriptions_start_handlers(rt: HostRuntime) {
    assert_texts(&rt, rt.alloc(), &PLAYED, &NOTES);
    assert_texts(&rt, rt.alloc(), &PLAYED, &SUBSCRIPTIONS);
}

// The end of the record of a message that is given back eight times.
const EIGHT_TIMES: &str = "process q.17 w work fine
process w.1 w put fine
end 19
";

// A message that carries 512 ids: its own is one too many for the process that it starts, and it stays out.
const LADEN: &str = "regions = ['us']
choices = ['finish']
store = [{name = 's', kind = 'kv', replicas = ['us']}, {name = 'q', kind = 'queue', replicas = ['us']}]
sub = [{name = 'jobs', store = 'q', channel = 'n', service = 'w', handler = 'work'}]
request = [{service = 'w', handler = 'put'}]
service = [{name = 'w', region = 'us', handler = [{name = 'put', body = ['repeat 16', 'repeat 16', 'write s k v', 'end', 'end', 'repeat 16', 'repeat 16', 'write s k v', 'end', 'end', 'write q n v']}, {name = 'work', body = ['nack']}]}]";

const STAYS_OUT: &str = "process q.3 w work lineage
process w.1 w put lineage
end 1028
";

// Documents with long records, and the end of each.
static ENDS: [(&str, &str); 2] = [(given_back!("8"), EIGHT_TIMES), (LADEN, STAYS_OUT)];

#[test]
fn a_message_comes_as_often_as_it_may(rt: HostRuntime) {
    assert_texts(&rt, rt.alloc(), &ENDED, &ENDS);
}
