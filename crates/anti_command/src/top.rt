ghost use Rattle.std.specs.Prelude.{◌≡◌, Some, false, true, IfErr};
ghost use Rattle.anti_command.specs.Outcomes.{IsOutcomeOf};
ghost use Rattle.anti_command.specs.Faults.{writes};
ghost use Rattle.anti_command.specs.Words.{command_of, plain_command_of, without_workers};
ghost use Rattle.anti_command.specs.inner.Settling.{IsSettled};
ghost use Rattle.anti_command.specs.declared.command.Command.TheVariants.{Run};

use crate::command::{Command, asked_for};
use crate::dispatch::prepare;
use crate::fault::{TopFault, status_of};
use crate::fault_line::tell;
use crate::outcome::Outcome;
use crate::prepared::Prepared;
use crate::products::work_document;
use anti_edge::{Failed, Sink, Source, write_all};
use anti_ids::Value;
use anti_text::RecordText;
use anti_work::Gate;
use std::alloc::Global;
use std::sync::Wait;
use std::thread::Threads;

// Writes what was prepared, or tells why nothing was.
fn settle<K: Sink, E: Sink>(
    prepared: Result<Prepared, TopFault>,
    out: &mut K,
    err: &mut E,
) -> Outcome
    requires unwritten { IfErr prepared (λ fault. writes (Some fault) ≡ false) }
    ensures { IsSettled prepared
        (record { tells = K.written; faults = K.faults; old = out.old; new = out.new })
        (record { tells = E.written; faults = E.faults; old = err.old; new = err.new }) result }
{
    let (kept, text) = match prepared {
        Ok(prepared) => prepared,
        Err(fault) => {
            tell(err, fault);
            return Outcome {
                status: status_of(Some(fault)),
                kept: None,
                fault: Some(fault),
            };
        }
    };
    match write_all(out, text.bytes()) {
        Ok(()) => Outcome {
            status: 0,
            kept,
            fault: None,
        },
        Err(Failed) => {
            tell(err, TopFault::WriteFault);
            Outcome {
                status: 4,
                kept,
                fault: Some(TopFault::WriteFault),
            }
        }
    }
}

/// Does what the words ask for with the document that the source has, where no threads are at hand: it runs no workers, and always
/// returns. A load reads nothing. The text goes to `out`, the line of a fault to `err`.
pub fn antipode_plain<S: Source, K: Sink, E: Sink>(
    alloc: Global,
    words: &[Value],
    src: &mut S,
    out: &mut K,
    err: &mut E,
) -> Outcome
    ensures { IsOutcomeOf (plain_command_of words.now)
        (record { tells = S.left; faults = S.faults; old = src.old; new = src.new })
        (record { tells = K.written; faults = K.faults; old = out.old; new = out.new })
        (record { tells = E.written; faults = E.faults; old = err.old; new = err.new }) result }
{
    let prepared = prepare(alloc, words, src);
    settle(prepared, out, err)
}

// Whether workers are asked for.
fn runs_workers(asked: Option<Command>) -> bool
    ensures yes { result ≡ true → asked ≡ Some Run }
    ensures no { result ≡ false → without_workers asked ≡ asked }
{
    match asked {
        None => false,
        Some(Command::Step) => false,
        Some(Command::Json) => false,
        Some(Command::Run) => true,
        Some(Command::Session) => false,
        Some(Command::Doctor) => false,
        Some(Command::Place) => false,
        Some(Command::Review) => false,
        Some(Command::Counterexample) => false,
        Some(Command::Load { .. }) => false,
    }
}

/// Does what the words ask for with the document that the source has; a load reads nothing. Workers run on threads of the runtime, and pass
/// the gate at the begin of each of their rounds; only then may the call wait. The text goes to `out`, the line of a fault to `err`.
pub fn antipode<R: Threads + Wait + Sync, S: Source, K: Sink, E: Sink, G: Gate + Sync>(
    rt: &R,
    alloc: Global,
    words: &[Value],
    src: &mut S,
    out: &mut K,
    err: &mut E,
    gate: &G,
) -> Outcome
    ensures { IsOutcomeOf (command_of words.now)
        (record { tells = S.left; faults = S.faults; old = src.old; new = src.new })
        (record { tells = K.written; faults = K.faults; old = out.old; new = out.new })
        (record { tells = E.written; faults = E.faults; old = err.old; new = err.new }) result }
{
    if !runs_workers(asked_for(words)) {
        return antipode_plain(alloc, words, src, out, err);
    }
    let prepared = work_document::<RecordText, R, S, G>(rt, alloc, src, gate);
    settle(prepared, out, err)
}
