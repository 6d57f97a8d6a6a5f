ghost use Rattle.std.specs.Prelude.{◌≡◌, [], IfOk, IsTrue, None, true, false, MatchOption, option_map};
ghost use Rattle.std.specs.Str.{is_utf8};
ghost use Rattle.toml.specs.Parse.{parse_document};
ghost use Rattle.toml.specs.View.{table_view};
ghost use Rattle.anti_ids.specs.Answers.{AnswersBut};
ghost use Rattle.anti_rules.specs.Order.{first_breach};
ghost use Rattle.anti_rules.specs.inner.Parses.{all_bodies};
ghost use Rattle.anti_app.specs.Sound.{is_sound};
ghost use Rattle.anti_app.specs.Stated.{app_chosen, app_in, app_of, app_with};
ghost use Rattle.anti_app.specs.declared.app.AppFault.TheVariants as faults;

use crate::app::{App, AppFault};
use crate::choice::choices_of;
use crate::region::regions_of;
use crate::request::requests_of;
use crate::service::services_of;
use crate::store::stores_of;
use crate::sub::subs_of;
use crate::table_values::{integer_in, number_or};
use anti_ids::{List, NoMemory};
use anti_rules::{Bodies, first_breach, things_at};
use std::alloc::Global;
use toml::Table;

// How many workers a run has where the document says nothing.
const WORKERS: u64 = 2;

// The application of a document that fails no rule, without its choices. Its bodies are parsed.
fn parts_of(alloc: Global, doc: &Table, bodies: Bodies) -> Result<App, NoMemory>
    requires fine { first_breach (table_view doc.now) ≡ None }
    requires parsed { bodies ≡ all_bodies (table_view doc.now) }
    ensures { IfOk result (λ app. app ≡ app_with (table_view doc.now) []) }
{
    let regions = regions_of(alloc, things_at(doc, "regions"))?;
    let stores = stores_of(alloc, regions.as_slice(), things_at(doc, "store"))?;
    let services = services_of(alloc, regions.as_slice(), things_at(doc, "service"), bodies)?;
    let subs = subs_of(
        alloc,
        stores.as_slice(),
        services.as_slice(),
        things_at(doc, "sub"),
    )?;
    let requests = requests_of(alloc, services.as_slice(), things_at(doc, "request"))?;
    Ok(App {
        regions,
        stores,
        services,
        subs,
        requests,
        choices: List::new(alloc),
        seed: number_or(0, integer_in(doc, "seed")),
        workers: number_or(WORKERS, integer_in(doc, "workers")) as u32,
    })
}

// The text of bytes that are UTF-8.
fn text_of(bytes: &[u8]) -> Option<&str>
    ensures { MatchOption result (is_utf8 bytes.now ≡ false)
        (λ text. (is_utf8 bytes.now ≡ true) × (text.now ≡ bytes.now)) }
{
    match std::str::from_utf8(bytes) {
        Ok(text) => Some(text),
        Err(_) => None,
    }
}

// The top table of a text, where it is a TOML document.
fn table_in(alloc: Global, text: &str) -> Result<Option<Table>, NoMemory>
    ensures { IfOk result (λ table. option_map table_view table ≡ parse_document text.now) }
{
    match toml::table_from_str(alloc, text) {
        Ok(table) => Ok(Some(table)),
        Err(fault) if fault.is_memory() => Err(NoMemory),
        Err(_) => Ok(None),
    }
}

// The application of a document that fails no rule, or the number, counted from 1, of its first choice that is none.
fn chosen(alloc: Global, doc: &Table, bodies: Bodies) -> Result<App, AppFault>
    requires fine { first_breach (table_view doc.now) ≡ None }
    requires parsed { bodies ≡ all_bodies (table_view doc.now) }
    ensures { AnswersBut faults.NoMemory result (app_chosen (table_view doc.now)) }
{
    let mut app = parts_of(alloc, doc, bodies)?;
    app.choices = choices_of(alloc, &app, things_at(doc, "choices"))?;
    Ok(app)
}

// The application of a document.
fn app_in(alloc: Global, doc: &Table) -> Result<App, AppFault>
    ensures { AnswersBut faults.NoMemory result (app_in (table_view doc.now)) }
{
    match first_breach(alloc, doc)? {
        Ok(bodies) => chosen(alloc, doc, bodies),
        Err(breach) => Err(AppFault::Bad {
            rule: breach.rule,
            place: breach.place,
        }),
    }
}

/// The application that bytes state. They state none where they are no TOML document in UTF-8 (`NotToml`), where the document fails
/// a rule of the format (`Bad`), and else where one of its choices has no form of the format or names what is not there (`BadChoice`).
pub fn read_app(alloc: Global, bytes: &[u8]) -> Result<App, AppFault>
    ensures reads { AnswersBut faults.NoMemory result (app_of bytes.now) }
    ensures sound { IfOk result (λ app. IsTrue (is_sound app)) }
{
    let Some(text) = text_of(bytes) else {
        return Err(AppFault::NotToml);
    };
    match table_in(alloc, text)? {
        Some(table) => app_in(alloc, &table),
        None => Err(AppFault::NotToml),
    }
}
