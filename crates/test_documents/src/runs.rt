// Documents that are played through the top call, and their records.

use crate::call_rows::{CallRow, ENDED, PLAYED, STEP, assert_at, assert_texts, comes_to, served};
use anti_ids::Bytes;
use std::alloc::Global;

// Documents with one service, and the record of each.
static RECORDS: [(&str, &str); 9] = [
    // a dry run before the shipment and after it, and repeats of a shipment: one too early, and one that is made
    (
        served!(
            "'take w 1', 'go w.1', 'again s eu 1', 'go w.1', 'ship s eu 1', 'again s eu 1 1', 'go w.1', 'again s eu 1 2'",
            "'dryrun', 'write s k a', ' dryrun', 'barrier ', 'dryrun'",
            ""
        ),
        "record 1
1 w.1 w.1/1 take 1 = got 1 request one 0 \"\" 1;
2 s.1 w.1/1 write k \"a\" 1; = k@1
3 s.2 w.1/1 dry eu 1;s/k@1 = missing 1;s/k@1 unwritten 1;
4 s.3 ~0 ship eu 1 1 = moved
5 s.4 ~0 again eu 1 1 = moved
6 s.5 w.1/1 look eu 1;s/k@1 = clear
wait 3 again s eu 1
wait 8 again s eu 1 2
process w.1 w one open
end 6
",
    ),
    // a read before anything is shipped shows nothing
    (
        served!(
            "'take w 1', 'go w.1', 'go w.1'",
            "'write s k a', 'read s k as x'",
            "'nack'"
        ),
        "record 1
1 w.1 w.1/1 take 1 = got 1 request one 0 \"\" 1;
2 s.1 w.1/1 write k \"a\" 1; = k@1
3 s.2 w.1/1 read eu k = k@0
process w.1 w one fine
span w.1/1 unguarded s.2
end 3
",
    ),
    // two processes, of which the second reads what the first wrote: a read alone adds nothing to what the next write carries
    (
        served!(
            "'take w 1', 'go w.1', 'ship s eu 1', 'take w 1', 'go w.2', 'go w.2'",
            "'write s k a'",
            "'read s k as p', 'write s j b'"
        ),
        "record 1
1 w.1 w.1/1 take 1 = got 1 request one 0 \"\" 1;
2 s.1 w.1/1 write k \"a\" 1; = k@1
2 w.2 w.2/1 take 1 = got 2 request two 0 \"\" 1;
3 s.2 ~0 ship eu 1 1 = moved
4 s.3 w.2/1 read eu k = k@1 \"a\" 1;
5 s.4 w.2/1 write j \"b\" 1; = j@2
process w.1 w one fine
process w.2 w two fine
span w.2/1 lossy s.4
end 6
",
    ),
    // the same where the second transfers what it read
    (
        served!(
            "'take w 1', 'go w.1', 'ship s eu 1', 'take w 1', 'go w.2', 'go w.2'",
            "'write s k a'",
            "'read s k as p', 'transfer p', 'write s j b'"
        ),
        "record 1
1 w.1 w.1/1 take 1 = got 1 request one 0 \"\" 1;
2 s.1 w.1/1 write k \"a\" 1; = k@1
2 w.2 w.2/1 take 1 = got 2 request two 0 \"\" 1;
3 s.2 ~0 ship eu 1 1 = moved
4 s.3 w.2/1 read eu k = k@1 \"a\" 1;
5 s.4 w.2/1 write j \"b\" 1;s/k@1 = j@2
process w.1 w one fine
process w.2 w two fine
span w.2/1 order s.1 s.3 s.4
end 6
",
    ),
    // a write over another of which its process knows nothing: it keeps the id of that one
    (
        served!(
            "'take w 1', 'go w.1', 'take w 1', 'go w.2'",
            "'write s k a'",
            "'write s k b'"
        ),
        "record 1
1 w.1 w.1/1 take 1 = got 1 request one 0 \"\" 1;
2 s.1 w.1/1 write k \"a\" 1; = k@1
2 w.2 w.2/1 take 1 = got 2 request two 0 \"\" 1;
3 s.2 w.2/1 write k \"b\" 1; = k@2 over 1;s/k@1
process w.1 w one fine
process w.2 w two fine
end 4
",
    ),
    // the same untracked: appended it brings its id and what it keeps, and taken out its id alone; then a write over one that is carried, and
    // in a span of its own one over two that are not, and what that brings
    (
        served!(
            "'take w 1', 'go w.1', 'take w 1', 'go w.2', 'go w.2', 'go w.2', 'go w.2', 'go w.2', 'go w.2'",
            "'write s k a'",
            "'write s k b as x untracked', 'write s j c', 'append x', 'write s i d', 'remove x', 'write s j e', 'root', 'write s k f', 'write s h g'"
        ),
        "record 1
1 w.1 w.1/1 take 1 = got 1 request one 0 \"\" 1;
2 s.1 w.1/1 write k \"a\" 1; = k@1
2 w.2 w.2/1 take 1 = got 2 request two 0 \"\" 1;
3 s.2 w.2/1 write k \"b\" 1; = k@2 over 1;s/k@1
4 s.3 w.2/1 write j \"c\" 1; = j@3
5 s.4 w.2/1 write i \"d\" 1;s/k@1,s/k@2,s/j@3 = i@4
6 s.5 w.2/1 write j \"e\" 1;s/k@1,s/j@3,s/i@4 = j@5
7 s.6 w.2/2 write k \"f\" 1; = k@6 over 1;s/k@1,s/k@2
8 s.7 w.2/2 write h \"g\" 1;s/k@1,s/k@2,s/k@6 = h@7
process w.1 w one fine
process w.2 w two fine
end 9
",
    ),
    // writes that are untracked, appended and taken out, and what each later write carries; then two spans, and a read whose block runs
    (
        served!(
            "{service = 'w', handler = 'one', value = 'key'}",
            "'take w 1', 'go w.1', 'go w.1', 'go w.1', 'go w.1', 'go w.1', 'go w.1', 'go w.1'",
            "'write s a 1 as x untracked', 'write s b 2 as y', 'append x', 'write s c $y', 'remove y', 'write s d $x', 'stop', 'root', 'write s $in 3 as z', 'root', 'read s e as r', 'if r absent', 'write s f 4', 'end', 'nack', 'write s g 5'",
            ""
        ),
        "record 1
1 w.1 w.1/1 take 1 = got 1 request one 0 \"key\" 1;
2 s.1 w.1/1 write a \"1\" 1; = a@1
3 s.2 w.1/1 write b \"2\" 1; = b@2
4 s.3 w.1/1 write c \"2\" 1;s/a@1,s/b@2 = c@3
5 s.4 w.1/1 write d \"1\" 1;s/a@1,s/c@3 = d@4
6 s.5 w.1/2 write key \"3\" 1; = key@5
7 s.6 w.1/3 read eu e = e@0
8 s.7 w.1/3 write f \"4\" 1; = f@6
process w.1 w one fine
span w.1/3 lossy s.2
end 8
",
    ),
    // a percent sign is escaped
    (
        served!("'take w 1', 'go w.1'", "'write s k a%b'", ""),
        "record 1
1 w.1 w.1/1 take 1 = got 1 request one 0 \"\" 1;
2 s.1 w.1/1 write k \"a%25b\" 1; = k@1
process w.1 w one fine
end 2
",
    ),
    // the value of the request is empty and gives no key
    (
        served!("'take w 1', 'go w.1'", "'write s $in a'", ""),
        "record 1
1 w.1 w.1/1 take 1 = got 1 request one 0 \"\" 1;
wait 2 go w.1
process w.1 w one badkey
end 1
",
    ),
];

// A block that writes 256 times, and a write more.
const MANY_WRITES: &str = served!(
    "'finish'",
    "'repeat 16', 'repeat 16', 'write s k v', 'end', 'end', 'write s k v'",
    "'nack'"
);

const ROOM_FOR_ALL: &str = "process w.1 w one fine\nprocess w.2 w two fine\nend 516\n";

// Two such blocks, and a write more.
const MOST_WRITES: &str = served!(
    "'finish'",
    "'repeat 16', 'repeat 16', 'write s k v', 'end', 'end', 'repeat 16', 'repeat 16', 'write s k v', 'end', 'end', 'write s k v'",
    "'nack'"
);

const ONE_ID_TOO_MANY: &str = "process w.1 w one lineage\nprocess w.2 w two fine\nend 1028\n";

// The same where the other process, which carries nothing, writes to that key: its write would keep the ids of all 513.
const WRITE_OVER_MANY: &str = served!(
    "'finish'",
    "'repeat 16', 'repeat 16', 'write s k v', 'end', 'end', 'repeat 16', 'repeat 16', 'write s k v', 'end', 'end', 'write s k v'",
    "'write s k v'"
);

const NO_WRITE_OVER_MANY: &str = "process w.1 w one lineage\nprocess w.2 w two store s\nend 1028\n";

// Nine requests, each of whose processes writes 256 times.
const NINE_PROCESSES: &str = served!(
    "{service = 'w', handler = 'one', value = 'k1'}, {service = 'w', handler = 'one', value = 'k2'}, {service = 'w', handler = 'one', value = 'k3'}, {service = 'w', handler = 'one', value = 'k4'}, {service = 'w', handler = 'one', value = 'k5'}, {service = 'w', handler = 'one', value = 'k6'}, {service = 'w', handler = 'one', value = 'k7'}, {service = 'w', handler = 'one', value = 'k8'}, {service = 'w', handler = 'one', value = 'k9'}",
    "'finish'",
    "'repeat 16', 'repeat 16', 'write s $in v', 'end', 'end'",
    ""
);

// The end of the record of a store that is full before the ninth process has written.
const NINTH_FINDS_NO_ROOM: &str = "process w.1 w one fine
process w.2 w one fine
process w.3 w one fine
process w.4 w one fine
process w.5 w one fine
process w.6 w one fine
process w.7 w one fine
process w.8 w one fine
process w.9 w one store s
end 4105
";

// The end of the record of a store that is full, of which all 454 writes came to eight regions: 4,096 choices, each with an entry.
const FULL_AND_SHIPPED: &[u8] = b"process w.1 w a store s
process w.2 w a store s
process w.3 w b store s
process w.4 w b store s
process w.5 w b store s
process w.6 w b store s
process w.7 w b store s
process w.8 w b store s
span w.1/1 lossy s.3
span w.2/1 lossy s.3
end 4096
";

// The same where each process tries its next write in place of the last eight shipments.
const FULL_AND_TRIED: &[u8] = b"wait 4089 go w.1
wait 4090 go w.2
wait 4091 go w.3
wait 4092 go w.4
wait 4093 go w.5
wait 4094 go w.6
wait 4095 go w.7
wait 4096 go w.8
process w.1 w a store s
process w.2 w a store s
process w.3 w b store s
process w.4 w b store s
process w.5 w b store s
process w.6 w b store s
process w.7 w b store s
process w.8 w b store s
span w.1/1 lossy s.3
span w.2/1 lossy s.3
end 4088
";

/// Texts, and how often each stands in a document before the next.
pub type Texts<'a> = &'a [(&'a str, u32)];

// The choices by which eight processes make 57 calls each.
static CALLS: [(&str, u32); 10] = [
    ("choices = [\n", 1),
    ("\"take w 1\",\n", 8),
    ("\"go w.1\",\n", 57),
    ("\"go w.2\",\n", 57),
    ("\"go w.3\",\n", 57),
    ("\"go w.4\",\n", 57),
    ("\"go w.5\",\n", 57),
    ("\"go w.6\",\n", 57),
    ("\"go w.7\",\n", 57),
    ("\"go w.8\",\n", 57),
];

// The choices by which each process tries one call more.
const TRIES: Texts = &[
    ("\"go w.1\",\n", 1),
    ("\"go w.2\",\n", 1),
    ("\"go w.3\",\n", 1),
    ("\"go w.4\",\n", 1),
    ("\"go w.5\",\n", 1),
    ("\"go w.6\",\n", 1),
    ("\"go w.7\",\n", 1),
    ("\"go w.8\",\n", 1),
];

// What stands behind the choices: a store with eight replicas, which is full after 454 writes and two reads. Each of the eight processes
// has a key of its own, and then a write still to make. The writes behind the reads are untracked, so that no order is printed.
static PARTS: [(&str, u32); 9] = [
    (
        "]
regions = [\"r0\", \"r1\", \"r2\", \"r3\", \"r4\", \"r5\", \"r6\", \"r7\"]
store = [{name = \"s\", kind = \"kv\", replicas = [\"r0\", \"r1\", \"r2\", \"r3\", \"r4\", \"r5\", \"r6\", \"r7\"]}]
request = [",
        1,
    ),
    (
        "{service = \"w\", handler = \"a\", value = \"k1\"}, {service = \"w\", handler = \"a\", value = \"k2\"}, ",
        1,
    ),
    (
        "{service = \"w\", handler = \"b\", value = \"k3\"}, {service = \"w\", handler = \"b\", value = \"k4\"}, {service = \"w\", handler = \"b\", value = \"k5\"}, ",
        1,
    ),
    (
        "{service = \"w\", handler = \"b\", value = \"k6\"}, {service = \"w\", handler = \"b\", value = \"k7\"}, {service = \"w\", handler = \"b\", value = \"k8\"}, ",
        1,
    ),
    (
        "]
[[service]]
name = \"w\"
region = \"r0\"
[[service.handler]]
name = \"a\"
body = [\"read s $in as x\", \"write s $in v as w untracked\", ",
        1,
    ),
    ("\"write s $in v\", ", 56),
    (
        "]
[[service.handler]]
name = \"b\"
body = [",
        1,
    ),
    ("\"write s $in v\", ", 58),
    ("]\n", 1),
];

// Adds the text so many times. `false` where memory runs out.
fn add_times(document: &mut Bytes, text: &str, times: u32) -> bool {
    for _ in 0..times {
        let Ok(()) = document.append(text.as_bytes()) else {
            return false;
        };
    }
    true
}

/// Adds the texts. `false` where memory runs out.
pub fn add_texts(document: &mut Bytes, texts: Texts) -> bool {
    for (text, times) in texts {
        if !add_times(document, text, *times) {
            return false;
        }
    }
    true
}

// Adds the choices by which so many writes come to eight regions. `false` where memory runs out.
fn add_shipments(alloc: Global, document: &mut Bytes, writes: u32) -> bool {
    for number in 0..writes.saturating_mul(8) {
        let (region, version) = (number % 8, number / 8 + 1);
        let Ok(choice) = format!(in alloc; "\"ship s r{region} {version}\",\n") else {
            return false;
        };
        if !add_times(document, &choice, 1) {
            return false;
        }
    }
    true
}

// How many of the 454 writes come to eight regions, the calls that are tried behind these, and what the document comes to.
static FULL_STORES: [(u32, Texts, CallRow); 3] = [
    (
        454,
        &[],
        CallRow {
            most: 5000,
            more: true,
            out: FULL_AND_SHIPPED,
            ..STEP
        },
    ),
    (
        453,
        TRIES,
        CallRow {
            most: 5000,
            more: true,
            out: FULL_AND_TRIED,
            ..STEP
        },
    ),
    (
        454,
        &[("\"go w.1\",\n", 1)],
        CallRow {
            most: 5000,
            status: 5,
            err: b"app 4 top 0 0\n",
            ..STEP
        },
    ),
];

// Adds the document of a full store. `false` where memory runs out.
fn add_full_store(alloc: Global, document: &mut Bytes, shipped: u32, tries: Texts) -> bool {
    add_texts(document, &CALLS)
        && add_shipments(alloc, document, shipped)
        && add_texts(document, tries)
        && add_texts(document, &PARTS)
}

// Whether the document comes to what the row wants. `false` where memory runs out, too.
fn is_played(alloc: Global, shipped: u32, tries: Texts, row: &CallRow) -> bool {
    let mut document = Bytes::new(alloc);
    add_full_store(alloc, &mut document, shipped, tries)
        && comes_to(alloc, &[row.word], document.bytes(), row)
}

#[test]
fn statements_and_choices_are_played(rt: HostRuntime) {
    assert_texts(&rt, rt.alloc(), &PLAYED, &RECORDS);
}

// Documents with long records, and the end of each.
static ENDS: [(&str, &str); 4] = [
    (MANY_WRITES, ROOM_FOR_ALL),
    (MOST_WRITES, ONE_ID_TOO_MANY),
    (WRITE_OVER_MANY, NO_WRITE_OVER_MANY),
    (NINE_PROCESSES, NINTH_FINDS_NO_ROOM),
];

#[test]
fn a_run_is_finished_on_a_full_store(rt: HostRuntime) {
    assert_texts(&rt, rt.alloc(), &ENDED, &ENDS);
}

#[test]
fn a_full_store_still_takes_each_shipment(rt: HostRuntime) {
    for (place, (shipped, tries, row)) in FULL_STORES.iter().enumerate() {
        assert_at(&rt, place, is_played(rt.alloc(), *shipped, tries, row));
    }
}
