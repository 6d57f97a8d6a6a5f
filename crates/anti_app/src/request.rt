ghost use Rattle.std.specs.Prelude.{◌≡◌, ◌≤◌, length, map, IfOk, IsTrue};
ghost use Rattle.std.specs.List.{list_all};
ghost use Rattle.anti_ids.specs.List.{plain};
ghost use Rattle.toml.specs.View.{view};
ghost use Rattle.anti_app.specs.Parts.{request_of};
ghost use Rattle.anti_app.specs.inner.Few.{HaveNumbers};
ghost use Rattle.anti_app.specs.inner.Fit.{is_fit_request};

use crate::app::{RequestDef, Requests, ServiceDef};
use crate::service::{handler_at, service_at};
use anti_ids::{LONGEST_VALUE, List, NoMemory, Value as Payload, ValueFault};
use anti_rules::text_at;
use std::alloc::Global;
use toml::Value;

// The value that a short text is.
fn value_of(alloc: Global, text: &str) -> Result<Payload, NoMemory>
    requires { length text.now ≤ LONGEST_VALUE }
    ensures { IfOk result (λ value. value ≡ text.now) }
{
    match Payload::new(alloc, text.as_bytes()) {
        Ok(value) => Ok(value),
        Err(ValueFault::NoMemory) => Err(NoMemory),
        // the text is short, and a text is UTF-8
        Err(ValueFault::TooLong) => unreachable!(),
        Err(ValueFault::BadUtf8) => unreachable!(),
    }
}

#[tactic(auto, unfolding(crate::specs::Parts::request_of, crate::specs::inner::Fit::is_fit_request))]
fn request_of(alloc: Global, services: &[ServiceDef], value: &Value) -> Result<RequestDef, NoMemory>
    requires few { HaveNumbers services.now }
    requires fit { IsTrue (is_fit_request (view value.now)) }
    ensures { IfOk result (λ request. request ≡ request_of services.now (view value.now)) }
{
    let payload = value_of(alloc, text_at(value, "value"))?;
    Ok(RequestDef {
        service: service_at(services, value),
        handler: handler_at(services, value),
        value: payload,
    })
}

/// The requests that a document lists, for its services.
pub fn requests_of(
    alloc: Global,
    services: &[ServiceDef],
    values: &[Value],
) -> Result<Requests, NoMemory>
    requires few { HaveNumbers services.now }
    requires fit { IsTrue (list_all is_fit_request (map view values.now)) }
    ensures { IfOk result (λ requests. requests
        ≡ plain (map (request_of services.now) (map view values.now))) }
{
    let mut requests = List::new(alloc);
    for value in values {
        let request = request_of(alloc, services, value)?;
        requests.add(request)?;
    }
    Ok(requests)
}
