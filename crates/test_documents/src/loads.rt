// The load of a number: its application, its summary, and that nothing is read.
ghost use Rattle.std.specs.Prelude.{IfSome, IsTrue};
ghost use Rattle.anti_app.specs.Sound.{is_sound};

use crate::call_rows::{assert_of, assert_so};
use crate::run_rows::{Wanted, assert_run};
use crate::text::are_alike;
use anti_app::{App, RequestDef};
use anti_command::antipode_plain;
use anti_edge::{MemorySink, MemorySource};
use anti_ids::Value;
use anti_load::load_app;
use std::alloc::Global;

// Numbers, and the summaries of their loads.
static SUMMARIES: [(&str, &str); 2] = [
    (
        "1",
        "summary 1\nentries 12\nwrites 2\nreads 2\nlooks 2\nships 3\nprocesses 2\nfine 2\nordered 2\nunguarded 0\nlossy 0\n",
    ),
    (
        "400",
        "summary 1\nentries 4800\nwrites 800\nreads 800\nlooks 800\nships 1200\nprocesses 800\nfine 800\nordered 800\nunguarded 0\nlossy 0\n",
    ),
];

// The document of the load of three requests.
const THREE: &str = "regions = ['us', 'eu']
choices = ['finish']
request = [{ service = 'poster', handler = 'post', value = 'k43' }, { service = 'poster', handler = 'post', value = 'k48' }, { service = 'poster', handler = 'post', value = 'k26' }]
[[store]]
name = 'posts'
kind = 'kv'
replicas = ['us', 'eu']
[[store]]
name = 'notes'
kind = 'queue'
replicas = ['eu']
[[service]]
name = 'poster'
region = 'us'
[[service.handler]]
name = 'post'
body = ['read posts $in as x', 'transfer x', 'write posts $in v', 'write notes n $in']
[[service]]
name = 'reader'
region = 'eu'
[[service.handler]]
name = 'note'
body = ['barrier', 'read posts $in as y']
[[sub]]
name = 'fans'
store = 'notes'
channel = 'n'
service = 'reader'
handler = 'note'
";

// What is so of its run.
static AS_STATED: [Wanted; 2] = [Wanted::Record(1000), Wanted::Load(3, "k43")];

// Whether the call of these words is done, and its run is kept.
fn is_done(
    alloc: Global,
    words: &[Value],
    src: &mut MemorySource,
    out: &mut MemorySink,
    err: &mut MemorySink,
) -> bool {
    let outcome = antipode_plain(alloc, words, src, out, err);
    outcome.status == 0 && outcome.kept.is_some()
}

// Whether the call of these words writes this text and tells nothing. Where memory runs out it does not.
fn writes(alloc: Global, words: &[Value], src: &mut MemorySource, text: &str) -> bool {
    let Ok(mut out) = MemorySink::new(alloc, 1000, 10, &[]) else {
        return false;
    };
    match MemorySink::new(alloc, 1000, 10, &[]) {
        Ok(mut err) => is_done(alloc, words, src, &mut out, &mut err)
            && out.bytes() == text.as_bytes()
            && err.bytes().is_empty(),
        Err(_) => false,
    }
}

// The same where the source fails when it is read.
fn writes_unread(alloc: Global, words: &[Value], text: &str) -> bool {
    match MemorySource::new(alloc, b"", 10, &[1]) {
        Ok(mut src) => writes(alloc, words, &mut src, text),
        Err(_) => false,
    }
}

// Whether the load of a number ends with this summary. Where memory runs out it does not.
fn sums_up(alloc: Global, number: &str, summary: &str) -> bool {
    let Ok(word) = Value::new(alloc, b"load") else {
        return false;
    };
    match Value::new(alloc, number.as_bytes()) {
        Ok(number) => writes_unread(alloc, &[word, number], summary),
        Err(_) => false,
    }
}

// Whether there are so many requests, and the value of the first is this word.
fn begin_with(requests: &[RequestDef], count: u32, word: &str) -> bool {
    match requests {
        [first, ..] => requests.len() == count as usize && first.value.bytes() == word.as_bytes(),
        [] => false,
    }
}

// Whether an application has so many requests, of which the first has this word as its value, and is alike the other, where one is given.
// Where memory runs out that is not so.
fn is_drawn(alloc: Global, app: &App, count: u32, word: &str, other: Option<&App>) -> bool
    requires sound { IsTrue (is_sound app.now) }
    requires other { IfSome other (λ app. IsTrue (is_sound app.now)) }
{
    if !begin_with(app.requests.as_slice(), count, word) {
        return false;
    }
    match other {
        Some(other) => are_alike(alloc, app, other, 1000),
        None => true,
    }
}

/// The same of the load of a number, which is at most 400.
pub fn is_load(alloc: Global, number: u32, word: &str, other: Option<&App>) -> bool
    requires { IfSome other (λ app. IsTrue (is_sound app.now)) }
{
    match load_app(alloc, number.min(400)) {
        Ok(app) => is_drawn(alloc, &app, number, word, other),
        Err(_) => false,
    }
}

#[test]
fn loads_are_summed_up(rt: HostRuntime) {
    for (number, summary) in &SUMMARIES {
        assert_of(&rt, number, sums_up(rt.alloc(), number, summary));
    }
}

#[test]
fn the_load_is_the_application_of_its_document(rt: HostRuntime) {
    assert_run(&rt, rt.alloc(), THREE, &AS_STATED);
}

#[test]
fn the_first_request_has_the_first_word(rt: HostRuntime) {
    assert_so(&rt, is_load(rt.alloc(), 42, "k33", None));
}
