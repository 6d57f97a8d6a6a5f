// Each rule of documents, told through the top call with its place.
use crate::call_rows::{REFUSED, assert_refused, assert_texts};

// A text eight times between two others.
macro_rules! eight {
    ($front:literal, $text:literal, $end:literal) => {
        concat!($front, $text, $text, $text, $text, $text, $text, $text, $text, $end)
    };
}

// Documents of one line, and the line that each is refused with.
const DOCUMENTS: &str = "service = [1, {size = 1}] => app 1 service 2 0
seed = 1 => app 2 top 0 0
regions = 'us' => app 3 top 0 0
regions = ['us', {size = 1}] => app 3 region 2 0
regions = [] => app 4 top 0 0
regions = ['a', 'b', 'c', 'd', 'e', 'f', 'g', 'h', 'i'] => app 4 top 0 0
regions = ['us', 'e u'] => app 6 region 2 0
regions = ['us', 'eu', 'us'] => app 7 region 3 0
";

// Documents of two lines.
const IN_US: &str = "regions = ['us']
@";

// The second line where it fails a rule on the keys and what stands at them.
const SHAPES: &str = "colour = 1 => app 1 top 0 0
store = [{name = 's', kind = 'kv', replicas = ['us'], size = 1}] => app 1 store 1 0
service = [{name = 'a', region = 'us', room = 8}] => app 1 service 1 0
service = [{name = 'a', region = 'us', handler = [{name = 'h', body = []}]}, {name = 'b', region = 'us', handler = [{name = 'h', body = [], size = 1}]}] => app 1 handler 2 0
sub = [{name = 'n', store = 's', channel = 'c', service = 'a'}] => app 2 sub 1 0
service = [{name = 'a', region = 'us', handler = [{body = []}]}] => app 2 handler 1 0
choices = ['finish', 1] => app 3 choice 2 0
store = {name = 's'} => app 3 top 0 0
store = [{name = 's', kind = 'kv', replicas = ['us', 1]}] => app 3 store 1 0
store = [{name = 's', kind = 'cached', replicas = ['us'], room = '8'}] => app 3 store 1 0
request = [{service = 'a', handler = 'h', value = 1}] => app 3 request 1 0
service = [{name = 'a', region = 'us'}, 4] => app 3 service 2 0
service = [{name = 'a', region = 'us', handler = 3}] => app 3 service 1 0
service = [{name = 'a', region = 'us', handler = [{name = 'h', body = []}, 4]}] => app 3 handler 2 0
service = [{name = 'a', region = 'us', handler = [{name = 'h', body = ['nack']}]}, {name = 'b', region = 'us', handler = [{name = 'h', body = ['barrier', 1]}]}] => app 3 handler 2 2
store = [{name = 's', kind = 'kv', replicas = []}] => app 4 store 1 0
seed = -1 => app 5 top 0 0
workers = 9 => app 5 top 0 0
store = [{name = 's', kind = 'kv', replicas = ['us'], tries = 0}] => app 5 store 1 0
store = [{name = 's', kind = 'kv', replicas = ['us'], room = 0}] => app 5 store 1 0
store = [{name = 's', kind = 'cached', replicas = ['us'], room = 65}] => app 5 store 1 0
";

// The second line where it fails a rule on names.
const NAMES: &str =
    "store = [{name = 'abcdefghijklmnopqrstuvwxy', kind = 'kv', replicas = ['us']}] => app 6 store 1 0
service = [{name = '', region = 'us'}] => app 6 service 1 0
service = [{name = 'a', region = 'us', handler = [{name = 'h', body = []}, {name = 'h#', body = []}]}] => app 6 handler 2 0
sub = [{name = 'n', store = 's', channel = 'c#', service = 'a', handler = 'h'}] => app 6 sub 1 0
store = [{name = 's', kind = 'kv', replicas = ['us']}, {name = 's', kind = 'kv', replicas = ['us']}] => app 8 store 2 0
service = [{name = 'a', region = 'us'}, {name = 'a', region = 'us'}] => app 8 service 2 0
service = [{name = 'a', region = 'us', handler = [{name = 'h', body = []}]}, {name = 'b', region = 'us', handler = [{name = 'h', body = []}, {name = 'g', body = []}, {name = 'h', body = []}]}] => app 9 handler 4 0
sub = [{name = 'n', store = 's', channel = 'c', service = 'a', handler = 'h'}, {name = 'n', store = 's', channel = 'c', service = 'a', handler = 'h'}] => app 10 sub 2 0
";

// The second line where it fails a rule on stores, services and subs.
const PARTS: &str = "store = [{name = 's', kind = 'set', replicas = ['us']}] => app 11 store 1 0
store = [{name = 's', kind = 'kv', replicas = ['us', 'eu']}] => app 12 store 1 0
store = [{name = 's', kind = 'topic', replicas = ['us'], tries = 3}] => app 13 store 1 0
store = [{name = 's', kind = 'cached', replicas = ['us'], room = 1, tries = 3}] => app 13 store 1 0
store = [{name = 's', kind = 'cached', replicas = ['us']}, {name = 't', kind = 'kv', replicas = ['us'], room = 8}] => app 13 store 2 0
service = [{name = 'a', region = 'eu'}] => app 14 service 1 0
sub = [{name = 'n', store = 's', channel = 'c', service = 'a', handler = 'h'}] => app 15 sub 1 0
";

// A document with the body of a handler.
const IN_BODY: &str = "regions = ['us']
store = [{name = 's', kind = 'kv', replicas = ['us']}]
service = [{name = 'a', region = 'us', handler = [{name = 'h', body = [@]}]}]";

// The body where it fails a rule on bodies.
const BODIES: &str = "'nack', '' => app 20 handler 1 2
'   ' => app 20 handler 1 1
'repeat 17', 'end' => app 20 handler 1 1
'end', 'jump' => app 20 handler 1 2
'barrier', 'end' => app 21 handler 1 2
'if x absent' => app 21 handler 1 1
'root', 'repeat 1', 'repeat 1', 'repeat 1', 'repeat 1', 'repeat 1', 'end', 'end', 'end', 'end', 'end' => app 21 handler 1 6
'repeat 16', 'repeat 16', 'repeat 2', 'end', 'end', 'end' => app 21 handler 1 3
'repeat 2', 'stop', 'end' => app 21 handler 1 2
'stop', 'barrier' => app 21 handler 1 1
'repeat 2', 'root', 'end', 'end' => app 21 handler 1 2
'write s k v as x', 'write s k v as x' => app 22 handler 1 2
'write s k v as x', 'read s k as x', 'append x' => app 22 handler 1 2
'append x', 'write s k v as x' => app 22 handler 1 1
'write s k $x as x' => app 22 handler 1 1
'read s k as x', 'append x' => app 22 handler 1 2
'read s k as x', 'root', 'transfer x' => app 22 handler 1 3
'barrier', 'write t k v' => app 23 handler 1 2
'read t k as x' => app 23 handler 1 1
'scan s k as x' => app 23 handler 1 1
'poll s k as x' => app 23 handler 1 1
'write a k v' => app 23 handler 1 1
'nack', 'call a g v as x' => app 24 handler 1 2
'send s h v' => app 24 handler 1 1
'nack', '' => app 20 handler 1 2
";

// Documents that fail a rule on what their parts say of each other, and the line that each is refused with.
static TOGETHER: [(&str, &str); 9] = [
    (
        "regions = ['us']
store = [{name = 's', kind = 'kv', replicas = ['us']}, {name = 's', kind = 'kv', replicas = ['us']}]
service = [{name = 's', region = 'us'}]",
        "app 8 store 2 0\n",
    ),
    (
        "regions = ['us']
store = [{name = 's', kind = 'kv', replicas = ['us']}]
service = [{name = 'a', region = 'us'}, {name = 's', region = 'us'}]",
        "app 8 service 2 0\n",
    ),
    (
        "regions = ['us', 'eu']
store = [{name = 's', kind = 'kv', replicas = ['us', 'eu', 'us']}]",
        "app 12 store 1 0\n",
    ),
    (
        "regions = ['us']
store = [{name = 's', kind = 'kv', replicas = ['us']}]
sub = [{name = 'n', store = 's', channel = 'c', service = 'a', handler = 'h'}]",
        "app 15 sub 1 0\n",
    ),
    (
        "regions = ['us']
store = [{name = 's', kind = 'queue', replicas = ['us']}]
sub = [{name = 'n', store = 's', channel = 'c', service = 'a', handler = 'h'}]
service = [{name = 'a', region = 'us', handler = [{name = 'g', body = []}]}]",
        "app 16 sub 1 0\n",
    ),
    (
        "regions = ['us']
store = [{name = 's', kind = 'queue', replicas = ['us']}]
sub = [{name = 'n', store = 's', channel = 'c', service = 'a', handler = 'h'}]
service = [{name = 'b', region = 'us', handler = [{name = 'h', body = []}]}]",
        "app 16 sub 1 0\n",
    ),
    (
        "regions = ['us', 'eu']
store = [{name = 's', kind = 'queue', replicas = ['eu']}]
sub = [{name = 'n', store = 's', channel = 'c', service = 'a', handler = 'h'}]
service = [{name = 'a', region = 'us', handler = [{name = 'h', body = []}]}]",
        "app 17 sub 1 0\n",
    ),
    (
        "regions = ['us']
request = [{service = 'a', handler = 'h'}, {service = 'a', handler = 'g'}]
service = [{name = 'a', region = 'us', handler = [{name = 'h', body = []}]}]",
        "app 18 request 2 0\n",
    ),
    (
        eight!(
            "regions = ['us']
service = [{name = 'a', region = 'us', handler = [{name = 'h', body = []}]}]
request = [{service = 'a', handler = 'h', value = '",
            "abcdabcdabcdabcdabcdabcdabcdabcd",
            "e'}]"
        ),
        "app 19 request 1 0\n",
    ),
];

// Documents with too many handlers or statements, with a fault in another handler than the first, or with a wrong choice.
static HANDLERS: [(&str, &str); 9] = [
    (
        eight!(
            "regions = ['us']
service = [{name = 'a', region = 'us', handler = [",
            "{name = 'h', body = []}, {name = 'h', body = []}, ",
            "{name = 'h', body = []}]}]"
        ),
        "app 4 service 1 0\n",
    ),
    (
        eight!(
            "regions = ['us']
service = [{name = 'a', region = 'us', handler = [{name = 'h', body = [",
            "'', '', '', '', '', '', '', '', ",
            "'']}]}]"
        ),
        "app 4 handler 1 0\n",
    ),
    (
        "regions = ['us']
store = [{name = 's', kind = 'kv', replicas = ['us']}]
service = [{name = 'a', region = 'us', handler = [{name = 'h', body = []}]}, {name = 'b', region = 'us', handler = [{name = 'h', body = ['append x']}, {name = 'g', body = ['end']}]}]",
        "app 21 handler 3 1\n",
    ),
    (
        "regions = ['us', 'eu']
store = [{name = 's', kind = 'kv', replicas = ['us']}]
service = [{name = 'a', region = 'us', handler = [{name = 'h', body = ['read s k as x']}]}, {name = 'b', region = 'eu', handler = [{name = 'h', body = ['write s k v', 'read s k as x']}]}]",
        "app 23 handler 2 2\n",
    ),
    (
        "regions = ['us']
store = [{name = 's', kind = 'cached', replicas = ['us'], room = 1}]
service = [{name = 'a', region = 'us', handler = [{name = 'h', body = ['read s k as x', 'scan s k as y']}]}]",
        "app 23 handler 1 2\n",
    ),
    (
        "regions = ['us']
choices = ['finish', ' repost b 1', 'repost a 0']
service = [{name = 'b', region = 'us', handler = [{name = 'h', body = ['call b h v as x']}]}]",
        "choice 3\n",
    ),
    (
        "regions = ['us']
choices = ['repost a 1', 'repost s 1']
store = [{name = 's', kind = 'kv', replicas = ['us']}]
service = [{name = 'a', region = 'us', handler = [{name = 'h', body = ['send a h v']}]}]",
        "choice 2\n",
    ),
    (
        "regions = ['us']
choices = ['again s us 1', 'again t us 1', 'again u us 1']
store = [{name = 's', kind = 'cached', replicas = ['us'], room = 64}, {name = 't', kind = 'cached', replicas = ['us']}]
service = [{name = 'a', region = 'us', handler = [{name = 'h', body = ['write s k v', 'read s k as x', 'read t k as y']}]}]",
        "choice 3\n",
    ),
    (
        "regions = ['us', 'eu']
seed = 9223372036854775807
workers = 8
choices = ['go nowhere', 'reposts a 1']
store = [{name = 's', kind = 'kv', replicas = ['us']}]
request = [{service = 'a', handler = 'h'}]
service = [{name = 'a', region = 'us', handler = [{name = 'h', body = ['read s k as x', 'transfer x', 'write s k $x as y', 'if x absent', 'append y', 'end']}, {name = 'g', body = ['repeat 16', 'repeat 16', 'barrier', 'end', 'end', 'stop']}]}, {name = 'b', region = 'eu', handler = [{name = 'h', body = ['write s k v']}]}]",
        "choice 1\n",
    ),
];

#[test]
fn each_rule_is_told_at_its_place(rt: HostRuntime) {
    let alloc = rt.alloc();
    assert_refused(&rt, alloc, "@", DOCUMENTS);
    assert_refused(&rt, alloc, IN_US, SHAPES);
    assert_refused(&rt, alloc, IN_US, NAMES);
    assert_refused(&rt, alloc, IN_US, PARTS);
    assert_refused(&rt, alloc, IN_BODY, BODIES);
    assert_texts(&rt, alloc, &REFUSED, &TOGETHER);
    assert_texts(&rt, alloc, &REFUSED, &HANDLERS);
}
