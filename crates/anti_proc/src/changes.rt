ghost use Rattle.std.specs.Prelude.{◌≡◌, ◌++◌, ◌<◌, [], unwrap_or, List as Items, IfOk, OnOk};
ghost use Rattle.anti_proc.specs.Local.{first_local, id_at, Setting};
ghost use Rattle.anti_proc.specs.Meaning.{Go, carry};
ghost use Rattle.anti_proc.specs.declared.variables.Variable.{Variable};
ghost use Rattle.anti_proc.specs.inner.Standing.{local_by, stage_or, variables_in};

use crate::additions::{add_write, carry};
use crate::next::Stage;
use crate::variables::{Variable, Variables, make_room, set};
use anti_baggage::Carried;
use anti_ids::{Lineage, List, Name, NoMemory, Value, WriteId};
use anti_kind::Handle;
use std::alloc::Global;

/// What became of the variables of a process since its last call.
#[derive(Drop)]
pub enum Since {
    /// They are as they were.
    Same,
    /// The reply set this one.
    Set(Variable),
    /// A new span forgot them.
    Forgotten,
}

/// What a process knows on its way to its next call, beside the variables that it had.
#[derive(Drop)]
pub struct Changes {
    pub span: u32,
    pub stopped: bool,
    pub carried: Carried,
    pub reply: Value,
    pub since: Since,
}

/// Takes over what became of the variables, where there is room for one more. It takes no memory.
pub fn follow(variables: &mut Variables, alloc: Global, since: Since)
    requires { 0 < variables.old.spare }
    ensures { variables.new.items ≡ variables_in since variables.old.items }
{
    match since {
        Since::Same => {}
        Since::Set(variable) => set(variables, variable),
        Since::Forgotten => *variables = List::new(alloc),
    }
}

/// The variables behind the first changes, before which none was set.
pub fn first_variables(alloc: Global, since: Since) -> Result<Variables, NoMemory>
    ensures { IfOk result (λ variables. variables.items ≡ variables_in since []) }
{
    let mut variables = List::new(alloc);
    make_room(&mut variables)?;
    follow(&mut variables, alloc, since);
    Ok(variables)
}

impl Changes {
    /// What a process knows that begins with a lineage. It takes no memory.
    pub fn first(alloc: Global, carried: Carried) -> Changes
        ensures local { local_by result [] ≡ record first_local { carried = carried } }
        ensures span { result.span ≡ 1 }
    {
        Changes {
            span: 1,
            stopped: false,
            carried,
            reply: Value::empty(alloc),
            since: Since::Same,
        }
    }

    /// Adds the id of a write to the lineage, and what is kept beside it, where that is told. Where there are too many the process ends.
    pub fn add_write(
        &mut self,
        id: &WriteId,
        over: &Option<Handle<Lineage>>,
    ) -> Result<Option<Stage>, NoMemory>
        ensures goes { IfOk result (λ stage. (before : Items Variable) (s : Setting) (go : Go)
            → stage_or stage s (local_by self.new before) go
            ≡ carry (id_at id.now.store id.now.key id.now.version ++ unwrap_or over.now []) (local_by self.old before) go) }
        ensures span { OnOk result (self.new.span ≡ self.old.span) }
    {
        add_write(&mut self.carried, id, over)
    }

    /// Adds the ids of a lineage to the lineage. Where there are too many the process ends.
    pub fn carry(&mut self, more: &Lineage) -> Result<Option<Stage>, NoMemory>
        ensures goes { IfOk result (λ stage. (before : Items Variable) (s : Setting) (go : Go)
            → stage_or stage s (local_by self.new before) go
            ≡ carry more.now (local_by self.old before) go) }
        ensures span { OnOk result (self.new.span ≡ self.old.span) }
    {
        carry(&mut self.carried, more)
    }
}
