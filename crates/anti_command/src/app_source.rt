ghost use Rattle.std.specs.Prelude.{◌≡◌, ◌≤◌, length, Some, false, true, Ok, IfOk, IfErr, IfSome, Option};
ghost use Rattle.anti_ids.specs.Counts.{Rose};
ghost use Rattle.anti_command.specs.Faults.{writes};
ghost use Rattle.anti_command.specs.Commands.{reads_source};
ghost use Rattle.anti_command.specs.Causes.{HasCause};
ghost use Rattle.anti_command.specs.inner.Stated.{IsFaultOf, IsPlayable};
ghost use Rattle.anti_command.specs.Runs.{application_of, IsStated};

use crate::command::Command;
use crate::fault::TopFault;
use anti_app::{App, read_app};
use anti_edge::{ReadRefused, Source, read_all};
use anti_ids::{Bytes, LONGEST_DOCUMENT};
use std::alloc::Global;

// The bytes of the document.
fn document<S: Source>(alloc: Global, src: &mut S) -> Result<Bytes, TopFault>
    ensures all { IfOk result (λ bytes. IfSome (S.left src.old) (λ left. bytes.items ≡ left)) }
    ensures short { IfOk result (λ bytes. length bytes.items ≤ LONGEST_DOCUMENT) }
    ensures cause { (asked : Option Command) → reads_source asked ≡ true →
        IfErr result (HasCause asked (S.left src.old) (S.left src.new)
        (Rose (S.faults src.old) (S.faults src.new)) ⊥) }
    ensures unwritten { IfErr result (λ fault. writes (Some fault) ≡ false) }
{
    match read_all(alloc, src, LONGEST_DOCUMENT) {
        Ok(bytes) => Ok(bytes),
        Err(ReadRefused::Fault) => Err(TopFault::ReadFault),
        Err(ReadRefused::TooLong) => Err(TopFault::TooLong),
        Err(ReadRefused::NoMemory) => Err(TopFault::NoMemory),
    }
}

// The application that the bytes state.
#[tactic(auto, unfolding(crate::specs::Runs::application_of, crate::specs::inner::Stated::IsPlayable))]
fn application(alloc: Global, bytes: &[u8]) -> Result<App, TopFault>
    ensures states { IfOk result (λ app. application_of bytes.now ≡ Ok app) }
    ensures sound { IfOk result IsPlayable }
    ensures cause { IfErr result (IsFaultOf bytes.now) }
{
    let app = read_app(alloc, bytes)?;
    Ok(app)
}

/// The application of the document that the source has. Each error has its cause, and none is of writing.
pub fn app_of<S: Source>(alloc: Global, src: &mut S) -> Result<App, TopFault>
    ensures stated { IfOk result (IsStated (S.left src.old)) }
    ensures sound { IfOk result IsPlayable }
    ensures cause { (asked : Option Command) → reads_source asked ≡ true →
        IfErr result (HasCause asked (S.left src.old) (S.left src.new)
        (Rose (S.faults src.old) (S.faults src.new)) ⊥) }
    ensures unwritten { IfErr result (λ fault. writes (Some fault) ≡ false) }
{
    let bytes = document(alloc, src)?;
    application(alloc, bytes.bytes())
}
