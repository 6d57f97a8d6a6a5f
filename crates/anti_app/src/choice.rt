ghost use Rattle.std.specs.Prelude.{◌≡◌, ◌==◌, ◌<◌, ◌^◌, [], ◌∷◌, map, option_map, IfOk, IfSome, length, position};
ghost use Rattle.std.specs.Str.{bytes_eq};
ghost use Rattle.anti_ids.specs.Answers.{AnswersBut};
ghost use Rattle.anti_ids.specs.Ascii.{dot};
ghost use Rattle.anti_ids.specs.List.{plain};
ghost use Rattle.toml.specs.View.{view};
ghost use Rattle.anti_app.specs.Chosen.{number_of, store_named, service_named, sub_named, object_named, if_both, go_to, part_of, to_bring, choice_in, choice_of};
ghost use Rattle.anti_app.specs.inner.Choices.{chosen};
ghost use Rattle.anti_app.specs.inner.Few.{AreFew};
ghost use Rattle.anti_app.specs.declared.app.AppFault.TheVariants as faults;

use crate::app::{App, AppFault, Choice, Choices};
use crate::named::found_in;
use crate::number::number_of;
use anti_ids::{List, NoMemory};
use anti_lang::words;
use anti_rules::text_of;
use std::alloc::Global;
use toml::Value;

// The number of the store with a name.
#[tactic(auto, unfolding(crate::specs::Chosen::store_named))]
fn store_named(app: &App, name: &[u8]) -> Option<u32>
    requires { AreFew app.now }
    ensures { result ≡ store_named app.now name.now }
{
    found_in(app.stores.as_slice(), name)
}

// The number of the service with a name.
#[tactic(auto, unfolding(crate::specs::Chosen::service_named))]
fn service_named(app: &App, name: &[u8]) -> Option<u32>
    requires { AreFew app.now }
    ensures number { result ≡ service_named app.now name.now }
    ensures within { IfSome result (λ number. number < length app.now.services.items) }
{
    found_in(app.services.as_slice(), name)
}

// The number of the subscription with a name.
#[tactic(auto, unfolding(crate::specs::Chosen::sub_named))]
fn sub_named(app: &App, name: &[u8]) -> Option<u32>
    requires { AreFew app.now }
    ensures { result ≡ sub_named app.now name.now }
{
    found_in(app.subs.as_slice(), name)
}

// The number of the object with a name: first come the stores, then the inboxes of the services.
fn object_named(app: &App, name: &[u8]) -> Option<u32>
    requires { AreFew app.now }
    ensures { result ≡ object_named app.now name.now }
{
    match store_named(app, name) {
        Some(store) => Some(store),
        None => match service_named(app, name) {
            Some(service) => Some(app.stores.len() as u32 + service),
            None => None,
        },
    }
}

// The choice `take SERVICE N`.
fn to_take(app: &App, service: &[u8], nth: &[u8]) -> Option<Choice>
    requires { AreFew app.now }
    ensures { result ≡
        if_both Choice.Take (service_named app.now service.now) (number_of nth.now) }
{
    Some(Choice::Take {
        service: service_named(app, service)?,
        nth: number_of(nth)?,
    })
}

// The choice `repost SERVICE N`.
fn to_repost(app: &App, service: &[u8], number: &[u8]) -> Option<Choice>
    requires { AreFew app.now }
    ensures { result ≡
        if_both Choice.Repost (service_named app.now service.now) (number_of number.now) }
{
    Some(Choice::Repost {
        service: service_named(app, service)?,
        number: number_of(number)?,
    })
}

// The choice `pull SUB`.
fn to_pull(app: &App, sub: &[u8]) -> Option<Choice>
    requires { AreFew app.now }
    ensures { result ≡ option_map Choice.Pull (sub_named app.now sub.now) }
{
    Some(Choice::Pull {
        sub: sub_named(app, sub)?,
    })
}

// The choice `repull SUB VERSION`.
fn to_repull(app: &App, sub: &[u8], version: &[u8]) -> Option<Choice>
    requires { AreFew app.now }
    ensures { result ≡ if_both Choice.Repull (sub_named app.now sub.now) (number_of version.now) }
{
    Some(Choice::Repull {
        sub: sub_named(app, sub)?,
        version: number_of(version)? as u64,
    })
}

// The part that the words behind a version state, where they state one.
fn part_of(words: &[&[u8]]) -> Option<Option<u32>>
    ensures { result ≡ part_of (map (λ word. word.now) words.now) }
{
    match words {
        [] => Some(None),
        [part] => Some(Some(number_of(part)?)),
        _ => None,
    }
}

// The choice `ship STORE REGION VERSION`, maybe with a part.
#[tactic(auto, unfolding(crate::specs::Chosen::to_bring))]
fn to_ship(app: &App, store: &[u8], region: &[u8], version: &[u8], part: &[&[u8]]) -> Option<Choice>
    requires { AreFew app.now }
    ensures { result ≡ to_bring Choice.Ship
        app.now store.now region.now version.now (map (λ word. word.now) part.now) }
{
    Some(Choice::Ship {
        store: store_named(app, store)?,
        region: found_in(app.regions.as_slice(), region)?,
        version: number_of(version)? as u64,
        part: part_of(part)?,
    })
}

// The choice `again STORE REGION VERSION`, maybe with a part.
#[tactic(auto, unfolding(crate::specs::Chosen::to_bring))]
fn to_ship_again(
    app: &App,
    store: &[u8],
    region: &[u8],
    version: &[u8],
    part: &[&[u8]],
) -> Option<Choice>
    requires { AreFew app.now }
    ensures { result ≡ to_bring Choice.Again
        app.now store.now region.now version.now (map (λ word. word.now) part.now) }
{
    Some(Choice::Again {
        store: store_named(app, store)?,
        region: found_in(app.regions.as_slice(), region)?,
        version: number_of(version)? as u64,
        part: part_of(part)?,
    })
}

// Where the first dot stands.
fn first_dot(word: &[u8]) -> Option<usize>
    ensures place { result ≡ position (λ b. b == dot) word.now }
    ensures within { IfSome result (λ dot. dot < length word.now) }
{
    for (place, byte) in word.iter().enumerate() {
        if *byte == b'.' {
            return Some(place);
        }
    }
    None
}

// The choice `go OBJECT.PLACE`.
#[tactic(auto, unfolding(crate::specs::Chosen::go_to))]
fn go_to(app: &App, mark: &[u8]) -> Option<Choice>
    requires { AreFew app.now }
    ensures { result ≡ go_to app.now mark.now }
{
    let dot = first_dot(mark)?;
    let object = object_named(app, mark.split_at(dot).0)?;
    let place = number_of(mark.split_at(dot + 1).1)?;
    Some(Choice::Go { object, place })
}

// The choice of one word.
#[tactic(auto, unfolding(crate::specs::Chosen::choice_in))]
fn of_one(app: &App, what: &[u8]) -> Option<Choice>
    ensures { result ≡ choice_in app.now (what.now ∷ []) }
{
    if what == b"finish".as_slice() {
        Some(Choice::Finish)
    } else {
        None
    }
}

// The choice of two words.
#[tactic(auto, unfolding(crate::specs::Chosen::choice_in))]
fn of_two(app: &App, what: &[u8], name: &[u8]) -> Option<Choice>
    requires { AreFew app.now }
    ensures { result ≡ choice_in app.now (what.now ∷ name.now ∷ []) }
{
    if what == b"pull".as_slice() {
        to_pull(app, name)
    } else if what == b"go".as_slice() {
        go_to(app, name)
    } else {
        None
    }
}

// The choice of three words.
#[tactic(auto, unfolding(crate::specs::Chosen::choice_in))]
fn of_three(app: &App, what: &[u8], name: &[u8], number: &[u8]) -> Option<Choice>
    requires { AreFew app.now }
    ensures { result ≡ choice_in app.now (what.now ∷ name.now ∷ number.now ∷ []) }
{
    if what == b"take".as_slice() {
        to_take(app, name, number)
    } else if what == b"repost".as_slice() {
        to_repost(app, name, number)
    } else if what == b"repull".as_slice() {
        to_repull(app, name, number)
    } else {
        None
    }
}

// The choice of some words: the first of them, and how many they are, say what the others are.
#[tactic(auto, unfolding(crate::specs::Chosen::choice_in))]
fn choice_in(app: &App, words: &[&[u8]]) -> Option<Choice>
    requires { AreFew app.now }
    ensures { result ≡ choice_in app.now (map (λ word. word.now) words.now) }
{
    match words {
        [] => None,
        [what] => of_one(app, what),
        [what, name] => of_two(app, what, name),
        [what, name, number] => of_three(app, what, name, number),
        [what, store, region, version, part @ ..] => {
            if *what == b"ship".as_slice() {
                to_ship(app, store, region, version, part)
            } else if *what == b"again".as_slice() {
                to_ship_again(app, store, region, version, part)
            } else {
                None
            }
        }
    }
}

// A choice.
#[tactic(auto, unfolding(crate::specs::Chosen::choice_of))]
fn choice_of(alloc: Global, app: &App, value: &Value) -> Result<Option<Choice>, NoMemory>
    requires { AreFew app.now }
    ensures { IfOk result (λ choice. choice ≡ choice_of app.now (view value.now)) }
{
    let words = words(alloc, text_of(value).as_bytes())?;
    Ok(choice_in(app, words.as_slice()))
}

/// The choices that some texts state, or the number, counted from 1, of the first that has no form of the format or names what is
/// not there.
pub fn choices_of(alloc: Global, app: &App, values: &[Value]) -> Result<Choices, AppFault>
    requires named { AreFew app.now }
    requires few { length values.now < 2 ^ 32 }
    ensures { AnswersBut faults.NoMemory result
        (chosen plain (map (choice_of app.now) (map view values.now))) }
{
    let mut choices = List::new(alloc);
    for (place, value) in values.iter().enumerate() {
        let Some(choice) = choice_of(alloc, app, value)? else {
            return Err(AppFault::BadChoice {
                number: place as u32 + 1,
            });
        };
        choices.add(choice)?;
    }
    Ok(choices)
}
