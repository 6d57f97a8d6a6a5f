// The record of a bare trace, whose processes are followed along it, and the record of what a run hands over.
ghost use Rattle.std.specs.Prelude.{IsTrue};
ghost use Rattle.anti_app.specs.Sound.{is_sound};

use crate::run_rows::{Wanted, assert_runs};
use anti_app::App;
use anti_ids::Bytes;
use anti_play::{Played, play};
use anti_report::Report;
use anti_text::{print, text};
use std::alloc::Global;

// Two services of which one calls the other, a store with two replicas, a call that goes too deep, and a choice that waits.
const CALLS: &str = "regions = ['us', 'eu']
choices = ['take c 2', 'go c.1', 'go c.1', 'go c.9', 'take d 1', 'finish']
store = [{name = 's', kind = 'blob', replicas = ['eu', 'us']}]
request = [{service = 'c', handler = 'ask', value = 'a'}, {service = 'c', handler = 'ask', value = 'b'}, {service = 'd', handler = 'deep'}]
[[service]]
name = 'c'
region = 'us'
handler = [{name = 'ask', body = ['write s k $in', 'call d tell $in as y', 'barrier', 'read s k as x']}]
[[service]]
name = 'd'
region = 'eu'
handler = [{name = 'tell', body = ['barrier', 'read s k as x', 'reply $in']}, {name = 'deep', body = ['call d deep x as y']}]";

// Handlers that write until no unit of their store is left, where no write replaces another, and a poll of a key that no name can be.
const FULL: &str = "regions = ['us']
choices = ['finish']
store = [{name = 's', kind = 'topic', replicas = ['us']}]
request = [{service = 'w', handler = 'fill'}, {service = 'w', handler = 'fill'}, {service = 'w', handler = 'fill'}, {service = 'w', handler = 'fill'}, {service = 'w', handler = 'fill'}, {service = 'w', handler = 'fill'}, {service = 'w', handler = 'fill'}, {service = 'w', handler = 'fill'}, {service = 'w', handler = 'fill'}, {service = 'w', handler = 'look', value = ' '}]
[[service]]
name = 'w'
region = 'us'
handler = [{name = 'fill', body = ['repeat 16', 'repeat 16', 'write s k v as w untracked', 'end', 'end']}, {name = 'look', body = ['poll s $in as x']}]";

// Documents whose two records are one, and longer than this.
static RECORDS: [(&str, Wanted); 2] = [(CALLS, Wanted::Record(300)), (FULL, Wanted::Record(300))];

// The record that is made of the trace of an application's run.
fn walked(alloc: Global, app: &App) -> Option<Bytes>
    requires { IsTrue (is_sound app.now) }
{
    match play(alloc, app) {
        Ok(run) => text(alloc, app, &run.trace, &run.waits).ok(),
        Err(_) => None,
    }
}

// The record that is printed of the run itself.
fn printed(alloc: Global, app: &App) -> Option<Bytes>
    requires { IsTrue (is_sound app.now) }
{
    match play(alloc, app) {
        Ok(
            Played {
                trace,
                waits,
                after,
            },
        ) => match Report::along(alloc, app, &trace, &waits, after) {
            Ok(report) => print(alloc, app, &report).ok(),
            Err(_) => None,
        },
        Err(_) => None,
    }
}

/// Whether two applications have the same seed, as many workers, and one record, which is longer than this: of the one as it is made of the
/// trace, of the other as it is printed of the run itself. Where memory runs out that is not so.
pub fn are_alike(alloc: Global, one: &App, other: &App, length: usize) -> bool
    requires one { IsTrue (is_sound one.now) }
    requires other { IsTrue (is_sound other.now) }
{
    if one.seed != other.seed || one.workers != other.workers {
        return false;
    }
    let Some(walked) = walked(alloc, one) else {
        return false;
    };
    match printed(alloc, other) {
        Some(printed) => walked.len() > length && walked.bytes() == printed.bytes(),
        None => false,
    }
}

#[test]
fn a_bare_trace_has_the_record_of_its_run(rt: HostRuntime) {
    assert_runs(&rt, rt.alloc(), &RECORDS);
}
