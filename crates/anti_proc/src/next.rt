ghost use Rattle.std.specs.Prelude.{◌≡◌, reverse, IfOk};
ghost use Rattle.anti_proc.specs.Local.{Setting, Local};
ghost use Rattle.anti_proc.specs.Meaning.{Go, looks};
ghost use Rattle.anti_proc.specs.inner.Standing.{stage_or};

use crate::end::BodyEnd;
use anti_ids::{List, Name, NoMemory};
use anti_kind::Call;
use anti_shim::{Looks, PlannedLook};
use std::alloc::Global;

/// What the reply to a call does.
#[derive(Drop)]
pub enum After {
    /// It tells what was written. The variable holds it, where there is one, and it is carried, unless it is untracked.
    Wrote {
        variable: Option<Name>,
        untracked: bool,
    },
    /// It shows what the variable holds then.
    Saw {
        variable: Name,
    },
    /// It is that of a look. The looks that the barrier makes after it stand in `later`, the last first.
    Looked {
        later: Looks,
        dry: bool,
    },
    /// It numbers a message that was posted. The reply to a call sets the variable; a send has none.
    Posted {
        variable: Option<Name>,
    },
    /// It brings the reply to a call, which the variable holds then.
    Heard {
        variable: Name,
    },
    /// It was the last: the process is at its end.
    Left(BodyEnd),
}

/// The call that is next, at the object of a number, and what its reply does.
#[derive(Drop)]
pub struct Next {
    pub object: u32,
    pub call: Call,
    pub after: After,
}

/// What a handler comes to: a call is next, or it is at its end.
#[derive(Drop)]
pub enum Stage {
    Asks(Next),
    Over(BodyEnd),
}

/// These looks, the last first.
pub fn last_first(alloc: Global, mut looks: Looks) -> Result<Looks, NoMemory>
    ensures { IfOk result (λ turned. turned.items ≡ reverse looks.items) }
{
    let mut turned = List::with_room_of(alloc, &looks)?;
    while let Some(look) = looks.pop() {
        turned.put(look);
    }
    Ok(turned)
}

/// The first of the looks in a region that are left to a barrier, of which the last comes first; `None` where none is left.
pub fn look_of(mut left: Looks, region: u32, dry: bool) -> Option<Stage>
    ensures { (s : Setting) (l : Local) (go : Go) → s.role.region ≡ region
        → stage_or result s l go ≡ looks s.role.region dry (reverse left.items) l go }
{
    let PlannedLook { store, ids } = left.pop()?;
    Some(Stage::Asks(Next {
        object: store,
        call: Call::Look { region, ids, dry },
        after: After::Looked { later: left, dry },
    }))
}
