ghost use Rattle.std.specs.Prelude.{◌≡◌, IfOk};
ghost use Rattle.anti_app.specs.Subs.{sub_of, subs_on};

use crate::app::{App, SubDef};
use crate::objects::region_of;
use anti_ids::NoMemory;
use anti_kind::Sub;
use std::alloc::Global;

// A subscription as its store has it: its messages come to the region of the service.
fn sub_of(app: &App, sub: &SubDef) -> Sub
    ensures { result ≡ sub_of app.now sub.now }
{
    Sub {
        channel: sub.channel,
        region: region_of(app, sub.service as usize),
    }
}

/// The subscriptions of a store, in the order of the document.
pub fn subs_on(alloc: Global, app: &App, store: u32) -> Result<Vec<Sub>, NoMemory>
    ensures { IfOk result (λ subs. subs.items ≡ subs_on app.now store) }
{
    let mut subs = Vec::new(alloc);
    for sub in app.subs.as_slice() {
        if sub.store == store {
            subs.push(sub_of(app, sub))?;
        }
    }
    Ok(subs)
}
