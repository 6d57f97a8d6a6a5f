use crate::made::{assert_of, assert_so};
use anti_app::{App, AppFault, Choice, Part, Place, StoreDef, read_app};
use anti_kind::StoreKind;
use anti_lang::Statement;
use std::alloc::{AllocError, Global};

// A document with a choice: two stores, of which one has no replica in `us`, a service, a subscription to that store, and a request.
fn document(alloc: Global, choice: &str) -> Result<String, AllocError> {
    format!(in alloc;
        "regions = ['us', 'eu']
store = [{{name = 's', kind = 'kv', replicas = ['us', 'eu']}}, {{name = 't', kind = 'topic', replicas = ['eu']}}]
sub = [{{name = 'p', store = 't', channel = 'c', service = 'w', handler = 'one'}}]
service = [{{name = 'w', region = 'eu', handler = [{{name = 'one', body = []}}]}}]
request = [{{service = 'w', handler = 'one'}}]
choices = ['{choice}']"
    )
}

// What bytes are to state.
#[derive(Drop)]
enum Wanted {
    /// An application with this first choice.
    Choice(Choice),
    /// The application of the document `WHOLE`.
    Whole,
    /// An application without all that may be left out.
    Bare,
    /// No application, for this fault.
    Fault(AppFault),
}

// Whether an application is what is wanted.
fn is_wanted(app: &App, wanted: &Wanted) -> bool {
    match wanted {
        Wanted::Choice(choice) =>
            matches!(app.choices.as_slice(), [first, ..] if *first == *choice),
        Wanted::Whole => is_whole(app),
        Wanted::Bare => is_bare(app),
        Wanted::Fault(_) => false,
    }
}

// Whether bytes state what is wanted.
fn states(alloc: Global, bytes: &[u8], wanted: &Wanted) -> bool {
    match read_app(alloc, bytes) {
        Ok(app) => is_wanted(&app, wanted),
        Err(fault) => matches!(wanted, Wanted::Fault(other) if fault == *other),
    }
}

// Whether a document with this choice states what is wanted.
fn states_choice(alloc: Global, choice: &str, wanted: &Wanted) -> bool {
    match document(alloc, choice) {
        Ok(text) => states(alloc, text.as_bytes(), wanted),
        Err(_) => false,
    }
}

// Choices, and what each is.
static CHOICES: [(&str, Wanted); 13] = [
    (
        "take w 1",
        Wanted::Choice(Choice::Take { service: 0, nth: 1 }),
    ),
    (
        "  take   w 4096 ",
        Wanted::Choice(Choice::Take {
            service: 0,
            nth: 4096,
        }),
    ),
    (
        "repost w 3",
        Wanted::Choice(Choice::Repost {
            service: 0,
            number: 3,
        }),
    ),
    (" pull  p ", Wanted::Choice(Choice::Pull { sub: 0 })),
    (
        "repull p 7",
        Wanted::Choice(Choice::Repull { sub: 0, version: 7 }),
    ),
    (
        "ship s us 1",
        Wanted::Choice(Choice::Ship {
            store: 0,
            region: 0,
            version: 1,
            part: None,
        }),
    ),
    (
        "ship s eu 4096 2",
        Wanted::Choice(Choice::Ship {
            store: 0,
            region: 1,
            version: 4096,
            part: Some(2),
        }),
    ),
    (
        "ship t us 1",
        Wanted::Choice(Choice::Ship {
            store: 1,
            region: 0,
            version: 1,
            part: None,
        }),
    ),
    (
        "again s eu 3",
        Wanted::Choice(Choice::Again {
            store: 0,
            region: 1,
            version: 3,
            part: None,
        }),
    ),
    (
        "again t us 10 4096",
        Wanted::Choice(Choice::Again {
            store: 1,
            region: 0,
            version: 10,
            part: Some(4096),
        }),
    ),
    (
        "go t.1",
        Wanted::Choice(Choice::Go {
            object: 1,
            place: 1,
        }),
    ),
    (
        "go w.12",
        Wanted::Choice(Choice::Go {
            object: 2,
            place: 12,
        }),
    ),
    ("finish", Wanted::Choice(Choice::Finish)),
];

#[test]
fn choices_have_their_forms(rt: HostRuntime) {
    for (text, wanted) in &CHOICES {
        assert_of(
            &rt,
            text.as_bytes(),
            states_choice(rt.alloc(), text, wanted),
        );
    }
}

// Texts that are no choice, by the word that they begin with.
static NO_CHOICES: [&[&str]; 8] = [
    &[
        "",
        "take",
        "take w",
        "take w 0",
        "take w 01",
        "take w 4097",
        "take w 10000",
        "take w +1",
        "take w -1",
        "take w 1x",
        "take w 1 1",
        "take s 1",
        "take x 1",
        "Take w 1",
    ],
    &["repost w 0", "repost s 1"],
    &["pull", "pull t", "pull w", "pull p 1"],
    &["repull p", "repull p 0", "repull t 1", "repull p 1 1"],
    &[
        "ship s us",
        "ship s us 0",
        "ship s us 1 0",
        "ship s us 1 1 1",
        "ship w us 1",
        "ship s w 1",
    ],
    &[
        "again s us",
        "again s x 1",
        "again x us 1",
        "again s us 1 1 1",
    ],
    &[
        "go", "go s", "go s.", "go .1", "go s.0", "go s.1.2", "go x.1", "go s .1",
    ],
    &["finish now", "finished"],
];

#[test]
fn near_misses_are_no_choices(rt: HostRuntime) {
    let wanted = Wanted::Fault(AppFault::BadChoice { number: 1 });
    for texts in &NO_CHOICES {
        for text in *texts {
            assert_of(
                &rt,
                text.as_bytes(),
                states_choice(rt.alloc(), text, &wanted),
            );
        }
    }
}

// Documents with more than one fault, and the one that is told.
static FAULTS: [(&[u8], Wanted); 7] = [
    (b"regions", Wanted::Fault(AppFault::NotToml)),
    (b"regions = ['us'] # \xff", Wanted::Fault(AppFault::NotToml)),
    (
        b"regions = []\nchoices = ['x']",
        Wanted::Fault(AppFault::Bad {
            rule: 4,
            place: Place {
                part: Part::Top,
                item: 0,
                line: 0,
            },
        }),
    ),
    (
        b"regions = ['us']\nstore = [{name = 's', kind = 'kv', replicas = ['us']}]\nsub = [{name = 'p', store = 's', channel = 'c', service = 'w', handler = 'a'}]\nchoices = ['x']",
        Wanted::Fault(AppFault::Bad {
            rule: 15,
            place: Place {
                part: Part::Sub,
                item: 1,
                line: 0,
            },
        }),
    ),
    (
        b"regions = ['us']\nservice = [{name = 'w', region = 'us', handler = [{name = 'a', body = ['call w a $in as x', 'send w b $x']}]}]",
        Wanted::Fault(AppFault::Bad {
            rule: 24,
            place: Place {
                part: Part::Handler,
                item: 1,
                line: 2,
            },
        }),
    ),
    (
        b"regions = ['us']\nchoices = ['finish', 'finish', 'x', 'y']",
        Wanted::Fault(AppFault::BadChoice { number: 3 }),
    ),
    (
        b"regions = ['us']\nservice = [{name = 'w', region = 'us', handler = [{name = 'a', body = ['nack', 'end']}]}]",
        Wanted::Fault(AppFault::Bad {
            rule: 21,
            place: Place {
                part: Part::Handler,
                item: 1,
                line: 2,
            },
        }),
    ),
];

#[test]
fn faults_come_in_their_order(rt: HostRuntime) {
    for (bytes, wanted) in &FAULTS {
        assert_of(&rt, bytes, states(rt.alloc(), bytes, wanted));
    }
}

// A store: its name, its kind, the regions of its replicas, how often it gives a message out, and how many keys a cache of it holds.
type Store = (&'static [u8], StoreKind, &'static [u32], u32, u32);

// The stores of the document `WHOLE`.
static STORES: [Store; 4] = [
    (b"s", StoreKind::Kv, &[1, 0], 3, 8),
    (b"t", StoreKind::Kv, &[1], 3, 8),
    (b"q", StoreKind::Queue, &[1], 5, 8),
    (b"c", StoreKind::Cached, &[0], 3, 2),
];

// Whether a store is the one that is wanted.
fn is_store(store: &StoreDef, wanted: &Store) -> bool {
    store.name.bytes() == wanted.0
        && store.kind == wanted.1
        && store.replicas.as_slice() == wanted.2
        && store.tries == wanted.3
        && store.room == wanted.4
}

// Whether the stores are those of the test's document.
fn has_stores(app: &App) -> bool {
    if app.stores.len() != STORES.len() {
        return false;
    }
    for place in 0..STORES.len() {
        if !is_store(app.stores.at(place), &STORES[place]) {
            return false;
        }
    }
    true
}

// Whether the subscription is that of the test's document.
fn has_sub(app: &App) -> bool {
    let [sub] = app.subs.as_slice() else {
        return false;
    };
    sub.name.bytes() == b"p".as_slice()
        && sub.store == 2
        && sub.channel.bytes() == b"c".as_slice()
        && sub.service == 1
        && sub.handler == 1
}

// Whether the services and requests are those of the test's document.
fn has_services(app: &App) -> bool {
    let [one, two] = app.services.as_slice() else {
        return false;
    };
    let [first, second] = app.requests.as_slice() else {
        return false;
    };
    one.name.bytes() == b"v".as_slice()
        && one.region == 0
        && one.handlers.len() == 1
        && two.region == 1
        && two.handlers.len() == 2
        && first.service == 1
        && first.handler == 1
        && first.value.bytes() == b"a.1".as_slice()
        && second.service == 0
        && second.handler == 0
        && second.value.bytes().is_empty()
}

// Whether the body of the last handler is the one of the test's document.
fn has_body(app: &App) -> bool {
    let [_, service] = app.services.as_slice() else {
        return false;
    };
    let [_, handler] = service.handlers.as_slice() else {
        return false;
    };
    let [
        Statement::Read { .. },
        Statement::Repeat { count: 3, body },
        Statement::Call { .. },
        Statement::Send { .. },
        Statement::Stop,
    ] = handler.body.as_slice()
    else {
        return false;
    };
    let [
        Statement::Write {
            untracked: true,
            ..
        },
    ] = body.as_slice()
    else {
        return false;
    };
    true
}

// A document in which most of what may stand in one does.
const WHOLE: &[u8] = b"regions = ['us', 'eu']
seed = 9223372036854775807
workers = 8
store = [{name = 's', kind = 'kv', replicas = ['eu', 'us']}, {name = 't', kind = 'kv', replicas = ['eu']}, {name = 'q', kind = 'queue', replicas = ['eu'], tries = 5}, {name = 'c', kind = 'cached', replicas = ['us'], room = 2}]
sub = [{name = 'p', store = 'q', channel = 'c', service = 'w', handler = 'two'}]
request = [{service = 'w', handler = 'two', value = 'a.1'}, {service = 'v', handler = 'two'}]
[[service]]
name = 'v'
region = 'us'
handler = [{name = 'two', body = []}]
[[service]]
name = 'w'
region = 'eu'
handler = [{name = 'one', body = []}, {name = 'two', body = ['read t k as x', ' repeat 3', 'write s $in $x as y untracked', 'end', 'call v two $x as z', 'send w one $z', 'stop']}]";

// Whether the application is the one that it states.
fn is_whole(app: &App) -> bool {
    app.regions.len() == 2
        && has_stores(app)
        && has_sub(app)
        && has_services(app)
        && has_body(app)
        && app.seed == 9223372036854775807
        && app.workers == 8
}

#[test]
fn documents_are_read(rt: HostRuntime) {
    assert_so(&rt, states(rt.alloc(), WHOLE, &Wanted::Whole));
}

// Whether all that may be left out was left out.
fn is_bare(app: &App) -> bool {
    app.seed == 0
        && app.workers == 2
        && app.stores.is_empty()
        && app.subs.is_empty()
        && app.choices.is_empty()
}

#[test]
fn a_document_may_be_short(rt: HostRuntime) {
    assert_so(&rt, states(rt.alloc(), b"regions = ['us']", &Wanted::Bare));
}
