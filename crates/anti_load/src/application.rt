ghost use Rattle.std.specs.Prelude.{◌≡◌, ◌≤◌, IfOk, IsTrue};
ghost use Rattle.anti_app.specs.Sound.{is_sound};
ghost use Rattle.anti_load.specs.Load.{load_application};

use crate::lists::{one, two};
use crate::names::name_of;
use crate::requests::requests_drawn;
use crate::services::services;
use crate::stores::{fans, stores};
use anti_app::{App, Choice};
use anti_ids::{MOST_REQUESTS, NoMemory};
use std::alloc::Global;

// The application, of its parts.
#[tactic(auto, unfolding(crate::specs::Load::load_application))]
fn load_application(alloc: Global, n: u32) -> Result<App, NoMemory>
    ensures { IfOk result (λ app. app ≡ load_application n) }
{
    Ok(App {
        regions: two(alloc, name_of("us"), name_of("eu"))?,
        stores: stores(alloc)?,
        services: services(alloc)?,
        subs: one(alloc, fans())?,
        requests: requests_drawn(alloc, n)?,
        choices: one(alloc, Choice::Finish)?,
        seed: 0,
        workers: 2,
    })
}

/// The application of a load of `n` requests, 1 to `MOST_REQUESTS`: each is for the key `k` and the next word of `Pcg32::new(n, 54)`
/// modulo 50. It is the same at each call. The only error is want of memory.
pub fn load_app(alloc: Global, n: u32) -> Result<App, NoMemory>
    requires few { n ≤ MOST_REQUESTS }
    ensures app { IfOk result (λ app. app ≡ load_application n) }
    ensures sound { IfOk result (λ app. IsTrue (is_sound app)) }
{
    load_application(alloc, n)
}
