ghost use Rattle.std.specs.Prelude.{◌≡◌, None, IsTrue, IfOk, IfSome};
ghost use Rattle.std.specs.List.{list_all};
ghost use Rattle.anti_app.specs.Sound.{are_sound_choices, is_sound, is_sound_choice};
ghost use Rattle.anti_adversary.specs.Runs.{IsShown};
ghost use Rattle.anti_adversary.specs.Verdicts.{IsHint, IsHintOf, IsMiss, IsShownOf};

use crate::examined::{first_barred, first_miss};
use crate::named::names_what_is_there;
use crate::player::Player;
use crate::verdict::{Hint, Shown};
use anti_app::{App, Choice, Choices};
use anti_doctor::SpanDiagnosis;
use anti_ids::{MOST_CHOICES, NoMemory};
use std::alloc::Global;
use std::mem;

// Plays the choices of an application. None where one of them makes no entry.
fn shown(alloc: Global, app: &App) -> Result<Option<Shown>, NoMemory>
    requires { IsTrue (is_sound app.now) }
    ensures { IfOk result (λ shown. IfSome shown (λ s. IsShown app.now s.marks.items s.trace)) }
{
    let mut player = Player::new(alloc, app)?;
    for choice in app.choices.as_slice() {
        let Some(_) = player.make(app, *choice)? else {
            return Ok(None);
        };
    }
    let (marks, trace) = player.over(alloc, app)?;
    Ok(Some(Shown { marks, trace }))
}

// Whether each of some choices names what is there.
fn are_named(app: &App, choices: &[Choice]) -> bool
    ensures { result ≡ list_all (is_sound_choice app.now) choices.now }
{
    for choice in choices {
        if !names_what_is_there(app, choice) {
            return false;
        }
    }
    true
}

// Whether an application may state these choices.
fn are_choices(app: &App, choices: &Choices) -> bool
    ensures { result ≡ are_sound_choices app.now choices.now.items }
{
    choices.len() <= MOST_CHOICES && are_named(app, choices.as_slice())
}

// The run of the choices of an application, and what one of its spans missed.
fn missing(alloc: Global, app: &App) -> Result<Option<(Shown, SpanDiagnosis)>, NoMemory>
    requires { IsTrue (is_sound app.now) }
    ensures { IfOk result (λ found. IfSome found (λ f.
        IsShown app.now f.0.marks.items f.0.trace × IsMiss f.0.trace f.1)) }
{
    let Some(shown) = shown(alloc, app)? else {
        return Ok(None);
    };
    match first_miss(alloc, app, &shown.trace)? {
        Some(miss) => Ok(Some((shown, miss))),
        None => Ok(None),
    }
}

// The run of the choices of an application, and what is answered of a span for whose reads no order is.
fn barred(alloc: Global, app: &App) -> Result<Option<Hint>, NoMemory>
    requires { IsTrue (is_sound app.now) }
    ensures { IfOk result (λ hint. IfSome hint (λ h.
        IsShown app.now h.shown.marks.items h.shown.trace × IsHint app.now h.shown.trace h.answer)) }
{
    let Some(shown) = shown(alloc, app)? else {
        return Ok(None);
    };
    match first_barred(alloc, app, &shown.trace)? {
        Some(answer) => Ok(Some(Hint { shown, answer })),
        None => Ok(None),
    }
}

/// The application with these choices in the place of its own, their run, and what a span missed in it. Where it may not state them, or they
/// make no such run, it is as it was.
pub(crate) fn with_miss(
    alloc: Global,
    mut app: App,
    choices: Choices,
) -> Result<(App, Option<(Shown, SpanDiagnosis)>), NoMemory>
    requires { IsTrue (is_sound app) }
    ensures sound { IfOk result (λ r. IsTrue (is_sound r.0)) }
    ensures none { IfOk result (λ r. r.1 ≡ None → r.0 ≡ app) }
    ensures some { IfOk result (λ r. IfSome r.1 (λ f. IsShownOf app r.0 f.0 × IsMiss f.0.trace f.1)) }
{
    if !are_choices(&app, &choices) {
        return Ok((app, None));
    }
    let own = mem::replace(&mut app.choices, choices);
    match missing(alloc, &app)? {
        Some(found) => Ok((app, Some(found))),
        None => {
            app.choices = own;
            Ok((app, None))
        }
    }
}

/// The same of a span for whose reads no order is answered.
pub(crate) fn with_hint(
    alloc: Global,
    mut app: App,
    choices: Choices,
) -> Result<(App, Option<Hint>), NoMemory>
    requires { IsTrue (is_sound app) }
    ensures sound { IfOk result (λ r. IsTrue (is_sound r.0)) }
    ensures hint { IfOk result (λ r. IsHintOf app r.0 r.1) }
{
    if !are_choices(&app, &choices) {
        return Ok((app, None));
    }
    let own = mem::replace(&mut app.choices, choices);
    match barred(alloc, &app)? {
        Some(hint) => Ok((app, Some(hint))),
        None => {
            app.choices = own;
            Ok((app, None))
        }
    }
}
