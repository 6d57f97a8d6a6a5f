ghost use Rattle.std.specs.Prelude.{◌≡◌, None, Some, false, true, Err, IfOk, IfErr, is_some};
ghost use Rattle.anti_ids.specs.Counts.{Rose};
ghost use Rattle.anti_command.specs.Words.{plain_command_of};
ghost use Rattle.anti_command.specs.Faults.{writes};
ghost use Rattle.anti_command.specs.Commands.{reads_source, plays, IsDone};
ghost use Rattle.anti_command.specs.Causes.{HasCause};

use crate::command::{Command, asked_for};
use crate::fault::TopFault;
use crate::prepared::Prepared;
use crate::products::{play_document, play_load, tell_document};
use crate::telling::{CounterexampleText, PlacementLine, ReviewLines};
use anti_edge::Source;
use anti_ids::Value;
use anti_text::{DoctorText, RecordJson, RecordText, SessionText, SummaryText};
use std::alloc::Global;

/// Does all that the words ask for, up to the first byte to be written. It has no threads, so it runs no workers.
pub fn prepare<S: Source>(alloc: Global, words: &[Value], src: &mut S) -> Result<Prepared, TopFault>
    ensures done { IfOk result (λ p.
        IsDone (plain_command_of words.now) (S.left src.old) p.0 p.1.items) }
    ensures plays { IfOk result (λ p. is_some p.0 ≡ plays (plain_command_of words.now)) }

    // Each fault has its cause, and none is of writing.
    ensures cause { IfErr result (HasCause (plain_command_of words.now) (S.left src.old) (S.left src.new)
        (Rose (S.faults src.old) (S.faults src.new)) ⊥) }
    ensures unwritten { IfErr result (λ fault. writes (Some fault) ≡ false) }
    ensures usage { plain_command_of words.now ≡ None → result ≡ Err TopFault.Usage }
    ensures src { reads_source (plain_command_of words.now) ≡ false → src.new ≡ src.old }
{
    match asked_for(words) {
        Some(Command::Step) => play_document::<RecordText, S>(alloc, src),
        Some(Command::Json) => play_document::<RecordJson, S>(alloc, src),
        Some(Command::Session) => play_document::<SessionText, S>(alloc, src),
        Some(Command::Doctor) => play_document::<DoctorText, S>(alloc, src),
        Some(Command::Place) => tell_document::<PlacementLine, S>(alloc, src),
        Some(Command::Review) => tell_document::<ReviewLines, S>(alloc, src),
        Some(Command::Counterexample) => tell_document::<CounterexampleText, S>(alloc, src),
        Some(Command::Load { requests }) => Ok(play_load::<SummaryText>(alloc, requests)?),
        Some(Command::Run) => Err(TopFault::Usage),
        None => Err(TopFault::Usage),
    }
}
