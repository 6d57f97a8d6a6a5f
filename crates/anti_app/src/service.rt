ghost use Rattle.std.specs.Prelude.{◌≡◌, ◌<◌, ◌^◌, length, map, IfOk, IsTrue};
ghost use Rattle.std.specs.List.{list_all};
ghost use Rattle.anti_ids.specs.List.{plain};
ghost use Rattle.toml.specs.View.{view};
ghost use Rattle.anti_rules.specs.inner.Parses.{handler_body, service_bodies};
ghost use Rattle.anti_app.specs.Parts.{handler_of, service_of, service_at, handler_at};
ghost use Rattle.anti_app.specs.inner.Few.{HaveNumbers};
ghost use Rattle.anti_app.specs.inner.Fit.{is_fit_handler, is_fit_service};

use crate::app::{HandlerDef, Handlers, ServiceDef, Services};
use crate::named::number_in;
use crate::reversal::turned;
use crate::table_values::name_in;
use anti_ids::{List, Name, NoMemory};
use anti_lang::Body;
use anti_rules::{Bodies, text_at, things_in};
use std::alloc::Global;
use toml::Value;

// A handler, of which the body is parsed.
#[tactic(auto, unfolding(crate::specs::Parts::handler_of, crate::specs::inner::Fit::is_fit_handler), using(crate::proofs::ParsedBodies::same_body))]
fn handler_of(value: &Value, body: Body) -> HandlerDef
    requires parsed { body ≡ handler_body (view value.now) }
    requires fit { IsTrue (is_fit_handler (view value.now)) }
    ensures { result ≡ handler_of (view value.now) }
{
    HandlerDef {
        name: name_in(value),
        body,
    }
}

// Some handlers, of which the bodies are parsed.
fn handlers_of(alloc: Global, values: &[Value], bodies: List<Body>) -> Result<Handlers, NoMemory>
    requires parsed { bodies.items ≡ map handler_body (map view values.now) }
    requires fit { IsTrue (list_all is_fit_handler (map view values.now)) }
    ensures { IfOk result (λ handlers. handlers ≡ plain (map handler_of (map view values.now))) }
{
    let mut handlers = List::new(alloc);
    let mut bodies_left = turned(alloc, bodies)?;
    for value in values {
        let Some(body) = bodies_left.pop() else {
            // there is a body for each handler
            unreachable!()
        };
        handlers.add(handler_of(value, body))?;
    }
    Ok(handlers)
}

// A service, of which the bodies are parsed.
#[tactic(auto, unfolding(crate::specs::Parts::service_of, crate::specs::inner::Fit::is_fit_service))]
fn service_of(
    alloc: Global,
    regions: &[Name],
    value: &Value,
    bodies: List<Body>,
) -> Result<ServiceDef, NoMemory>
    requires few { length regions.now < 2 ^ 32 }
    requires parsed { bodies ≡ service_bodies (view value.now) }
    requires fit { IsTrue (is_fit_service (view value.now)) }
    ensures { IfOk result (λ service. service ≡ service_of regions.now (view value.now)) }
{
    let handlers = handlers_of(alloc, things_in(value, "handler"), bodies)?;
    Ok(ServiceDef {
        name: name_in(value),
        region: number_in(regions, text_at(value, "region")),
        handlers,
    })
}

/// Some services, of which the bodies are parsed: each body is moved to its handler.
pub fn services_of(
    alloc: Global,
    regions: &[Name],
    values: &[Value],
    bodies: Bodies,
) -> Result<Services, NoMemory>
    requires few { length regions.now < 2 ^ 32 }
    requires parsed { bodies.items ≡ map service_bodies (map view values.now) }
    requires fit { IsTrue (list_all is_fit_service (map view values.now)) }
    ensures { IfOk result (λ services. services ≡
        plain (map (service_of regions.now) (map view values.now))) }
{
    let mut services = List::new(alloc);
    let mut left = turned(alloc, bodies)?;
    for value in values {
        let Some(bodies) = left.pop() else {
            // there are bodies for each service
            unreachable!()
        };
        services.add(service_of(alloc, regions, value, bodies)?)?;
    }
    Ok(services)
}

/// The number of the service that a thing names.
pub fn service_at(services: &[ServiceDef], value: &Value) -> u32
    requires { HaveNumbers services.now }
    ensures { result ≡ service_at services.now (view value.now) }
{
    number_in(services, text_at(value, "service"))
}

/// The number of the handler that a thing names among those of the service that it names.
pub fn handler_at(services: &[ServiceDef], value: &Value) -> u32
    requires { HaveNumbers services.now }
    ensures { result ≡ handler_at services.now (view value.now) }
{
    match services.get(service_at(services, value) as usize) {
        Some(service) => number_in(service.handlers.as_slice(), text_at(value, "handler")),
        None => 0,
    }
}
