ghost use Rattle.std.specs.Prelude.{◌≡◌};
ghost use Rattle.anti_ids.specs.Counts.{Rose};
ghost use Rattle.anti_edge.specs.Outside.{AddsFront, with_bytes};
ghost use Rattle.anti_command.specs.Lines.{line_of};

use crate::fault::{TopFault, line_of};
use anti_edge::{Failed, Sink, write_all};

/// Writes the line of a fault, or as much of it as the sink takes. It takes no memory.
pub fn tell<E: Sink>(err: &mut E, fault: TopFault)
    ensures line { AddsFront (line_of fault) (E.written err.old) (E.written err.new) }
    ensures whole { ¬ Rose (E.faults err.old) (E.faults err.new) → E.written err.new ≡ with_bytes (line_of fault) (E.written err.old) }
{
    let line = line_of(fault);
    match write_all(err, line.as_str().as_bytes()) {
        Ok(()) => {}
        Err(Failed) => {}
    }
}
