ghost use Rattle.std.specs.Prelude.{◌≡◌, ◌<◌, ◌^◌, length, map, IfOk, IsTrue};
ghost use Rattle.std.specs.List.{list_all};
ghost use Rattle.anti_ids.specs.List.{plain};
ghost use Rattle.toml.specs.View.{view};
ghost use Rattle.anti_app.specs.Parts.{sub_of};
ghost use Rattle.anti_app.specs.inner.Few.{HaveNumbers};
ghost use Rattle.anti_app.specs.inner.Fit.{is_fit_sub};

use crate::app::{ServiceDef, StoreDef, SubDef, SubDefs};
use crate::named::number_in;
use crate::service::{handler_at, service_at};
use crate::table_values::{name_in, name_of};
use anti_ids::{List, NoMemory};
use anti_rules::text_at;
use std::alloc::Global;
use toml::Value;

#[tactic(auto, unfolding(crate::specs::Parts::sub_of, crate::specs::inner::Fit::is_fit_sub))]
fn sub_of(stores: &[StoreDef], services: &[ServiceDef], value: &Value) -> SubDef
    requires few_stores { length stores.now < 2 ^ 32 }
    requires few { HaveNumbers services.now }
    requires fit { IsTrue (is_fit_sub (view value.now)) }
    ensures { result ≡ sub_of stores.now services.now (view value.now) }
{
    SubDef {
        name: name_in(value),
        store: number_in(stores, text_at(value, "store")),
        channel: name_of(text_at(value, "channel")),
        service: service_at(services, value),
        handler: handler_at(services, value),
    }
}

/// The subscriptions that a document lists, for its stores and services.
pub fn subs_of(
    alloc: Global,
    stores: &[StoreDef],
    services: &[ServiceDef],
    values: &[Value],
) -> Result<SubDefs, NoMemory>
    requires few_stores { length stores.now < 2 ^ 32 }
    requires few { HaveNumbers services.now }
    requires fit { IsTrue (list_all is_fit_sub (map view values.now)) }
    ensures { IfOk result (λ subs. subs
        ≡ plain (map (sub_of stores.now services.now) (map view values.now))) }
{
    let mut subs = List::new(alloc);
    for value in values {
        subs.add(sub_of(stores, services, value))?;
    }
    Ok(subs)
}
