ghost use Rattle.std.specs.Prelude.{◌≡◌, ◌<◌, OnErr, OnOk, option_map};
ghost use Rattle.anti_proc.specs.Local.{held_in, with_held};
ghost use Rattle.anti_proc.specs.inner.Variables.{place_among};

use anti_ids::{Lineage, List, Name, NoMemory, Value, WriteId};
use anti_kind::Rows;

/// What a variable of a handler holds.
#[derive(Drop)]
pub enum Binding {
    /// The id of a write, and the lineage that the store keeps beside it.
    Wrote { id: WriteId, lineage: Lineage },
    /// The rows that a read of the store of this number showed.
    Saw { store: u32, rows: Rows },
    /// The value of a reply.
    Heard(Value),
}

/// A variable that is set.
#[derive(Drop)]
pub struct Variable {
    pub name: Name,
    pub held: Binding,
}

/// The variables that are set, each once.
pub type Variables = List<Variable>;

// The place of the variable with a name among these, or how many they are.
fn place_among(variables: &[Variable], name: &Name) -> usize
    ensures { result ≡ place_among variables.now name.now }
{
    for (place, variable) in variables.iter().enumerate() {
        if variable.name == *name {
            return place;
        }
    }
    variables.len()
}

/// What a variable holds, where it is set.
pub fn held_in<'a>(variables: &'a [Variable], name: &Name) -> Option<&'a Binding>
    ensures { option_map (λ held. held.now) result ≡ held_in variables.now name.now }
{
    for variable in variables {
        if variable.name == *name {
            return Some(&variable.held);
        }
    }
    None
}

/// Makes room for one variable more.
pub fn make_room(variables: &mut Variables) -> Result<(), NoMemory>
    ensures items { variables.new.items ≡ variables.old.items }
    ensures room { OnOk result (0 < variables.new.spare) }
    ensures err { OnErr result (variables.new ≡ variables.old) }
{
    variables.reserve(1)
}

/// Sets a variable, where there is room for one more. It takes no memory.
#[tactic(auto, using(crate::proofs::Setting::set_there, crate::proofs::Setting::set_new, crate::proofs::Setting::place_within))]
pub fn set(variables: &mut Variables, variable: Variable)
    requires { 0 < variables.old.spare }
    ensures { variables.new.items ≡ with_held variable.name variable.held variables.old.items }
{
    let place = place_among(variables.as_slice(), &variable.name);
    if place < variables.len() {
        variables.set(place, variable);
    } else {
        variables.put(variable);
    }
}
