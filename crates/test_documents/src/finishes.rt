// A world that is finished, also where memory is refused on the way.
ghost use Rattle.std.specs.Prelude.{IsTrue};
ghost use Rattle.anti_app.specs.Sound.{is_sound};
ghost use Rattle.anti_play.specs.inner.Standing.{IsSoundWorld, IsWorldOf};

use crate::call_rows::assert_so;
use crate::past::WHOLE;
use crate::run_rows::application;
use anti_app::App;
use anti_play::World;
use std::alloc::Global;

// How many entries the run of the whole application has.
const ENTRIES: u32 = 238;

// Whether a world has as many entries as it should. `true` where memory runs out.
fn has_all(alloc: Global, world: World) -> bool
    requires { IsSoundWorld world }
{
    match world.over(alloc) {
        Ok((trace, _)) => trace.len() == ENTRIES,
        Err(_) => true,
    }
}

// Whether a world that was not finished for want of memory is finished at the next try.
fn is_finished_again(alloc: Global, app: &App, mut world: World) -> bool
    requires sound { IsTrue (is_sound app.now) }
    requires world { IsWorldOf app.now world }
{
    match world.finish(app) {
        Ok(()) => has_all(alloc, world),
        Err(_) => false,
    }
}

// Whether the world of an application is finished, at the first try or, where memory is refused for that, at the next. `true` where memory
// runs out before.
fn is_finished(alloc: Global, app: &App) -> bool
    requires { IsTrue (is_sound app.now) }
{
    let Ok(mut world) = World::new(alloc, app) else {
        return true;
    };
    match world.finish(app) {
        Ok(()) => has_all(alloc, world),
        Err(_) => is_finished_again(alloc, app, world),
    }
}

#[test]
fn a_finish_without_memory_goes_on(rt: HostRuntime) {
    let is_so = match application(rt.alloc(), WHOLE.as_bytes()) {
        Some(app) => is_finished(rt.alloc(), &app),
        None => true,
    };
    assert_so(&rt, is_so);
}
