ghost use Rattle.std.specs.Prelude.{◌≡◌, ℕ, ◌<◌, [], IfOk, IsTrue, Some, length, slice_get, vec_len};
ghost use Rattle.anti_app.specs.Sound.{is_sound};
ghost use Rattle.anti_kind.specs.Lones.{IsNumbered};
ghost use Rattle.anti_object.specs.Standing.{ObjectAt, object_start};
ghost use Rattle.anti_shared.specs.Passes.{PassView};
ghost use Rattle.anti_work.specs.inner.Closing.{AreSharedBy};
ghost use Rattle.anti_work.specs.inner.Joining.{HaveJoined};
ghost use Rattle.anti_work.specs.inner.Knowing.{AreOf};
ghost use Rattle.anti_work.specs.inner.Firsts.{AllMaySplit, AreSplit, AreStartsOf, IsSharedOf, IsSplitAt};

use crate::start::Start;
use anti_app::App;
use anti_ids::NoMemory;
use anti_object::Object;
use anti_play::objects;
use anti_shared::{Pass, Shared};
use std::alloc::Global;

// Shares an object under its number. Where there is no memory it is given up.
fn share_one(
    alloc: Global,
    number: u32,
    object: Object,
) -> Result<(Shared<Object>, Pass<Object>), NoMemory>
    requires fresh { ObjectAt object [] }
    requires numbered { IsNumbered (object_start object) number }
    ensures { IfOk result (IsSharedOf number object) }
{
    match Shared::new(alloc, number, object) {
        Ok(made) => Ok(made),
        Err((_object, fault)) => Err(fault),
    }
}

// The objects of an application, each shared under its number, and the first pass of each, of which one further pass can be made for each
// worker.
pub(crate) fn share(
    alloc: Global,
    app: &App,
) -> Result<(Vec<Shared<Object>>, Vec<Pass<Object>>), NoMemory>
    requires { IsTrue (is_sound app.now) }
    ensures shared { IfOk result (λ made. AreSharedBy app.now made.0.items) }
    ensures of { IfOk result (λ made. AreOf made.0.items made.1.items) }
    ensures room { IfOk result (λ made. AllMaySplit app.now.workers made.1.items) }
{
    let mut left = objects(alloc, app)?;
    let mut shared = Vec::new(alloc);
    let mut firsts = Vec::new(alloc);
    while let Some(object) = left.pop() {
        let number = left.len();
        let (one, first) = share_one(alloc, number as u32, object)?;
        shared.push(one)?;
        firsts.push(first)?;
    }
    // they were shared from the last one on
    shared.reverse();
    firsts.reverse();
    Ok((shared, firsts))
}

// Splits a further pass off the one at a place.
fn split_at(
    shared: &[Shared<Object>],
    firsts: &mut Vec<Pass<Object>>,
    at: usize,
) -> Result<Pass<Object>, NoMemory>
    requires there { at < length shared.now }
    requires of { AreOf shared.now firsts.old.items }
    requires room { (pass : PassView Object) → slice_get firsts.old.items at ≡ Some pass → 0 < pass.room }
    ensures { IfOk result (IsSplitAt at firsts.old.items firsts.new.items) }
{
    shared[at].split(&mut firsts[at])
}

// A further pass of each object.
fn split_all(
    alloc: Global,
    shared: &[Shared<Object>],
    firsts: &mut Vec<Pass<Object>>,
) -> Result<Vec<Pass<Object>>, NoMemory>
    requires of { AreOf shared.now firsts.old.items }
    requires room { (o : ℕ) (pass : PassView Object) → slice_get firsts.old.items o ≡ Some pass → 0 < pass.room }
    ensures len { IfOk result (λ passes. vec_len passes ≡ length shared.now) }
    ensures split { IfOk result (λ passes. AreSplit shared.now firsts.old.items firsts.new.items passes.items) }
{
    let mut passes = Vec::new(alloc);
    while passes.len() < shared.len() {
        let at = passes.len();
        let pass = split_at(shared, firsts, at)?;
        passes.push(pass)?;
    }
    Ok(passes)
}

// What the workers of the application begin with, in the order of their numbers.
pub(crate) fn starts(
    alloc: Global,
    app: &App,
    shared: &[Shared<Object>],
    firsts: &mut Vec<Pass<Object>>,
) -> Result<Vec<Start>, NoMemory>
    requires shared { AreSharedBy app.now shared.now }
    requires of { AreOf shared.now firsts.old.items }
    requires room { AllMaySplit app.now.workers firsts.old.items }
    ensures of { IfOk result (λ starts. AreOf shared.now firsts.new.items) }
    ensures joined { IfOk result (λ starts. HaveJoined [] firsts.new.items) }
    ensures many { IfOk result (λ starts. vec_len starts ≡ app.now.workers) }
    ensures starts { IfOk result (λ starts. AreStartsOf app.now shared.now starts.items) }
{
    let mut starts = Vec::new(alloc);
    while starts.len() < app.workers as usize {
        let before = starts.len();
        let passes = split_all(alloc, shared, firsts)?;
        starts.push(Start {
            number: before as u32 + 1,
            passes,
            alloc,
        })?;
    }
    Ok(starts)
}
