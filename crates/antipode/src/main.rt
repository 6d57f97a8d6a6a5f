//! `antipode step` plays the choices of the document on standard input, and writes the record of the run to standard output; `antipode
//! json` writes it as JSON. `antipode run` lets workers on threads play the document, and writes the record of what they did. `antipode
//! session` plays the document as `step` does, and writes what its sessions saw, and `antipode doctor` what its reads missed, or orders that
//! explain them. `antipode place` tells whether barriers, transfers and roots stand where they must in the document, and `antipode review`
//! all lines at which they do not, and the barriers that never have to wait. `antipode counterexample` looks for a run of the document in
//! which a read misses a write, and writes its choices. `antipode load 400` plays the load of 400 requests, and writes the summary of the
//! run; it reads nothing.
#![tactic(auto)]

ghost use Rattle.std.specs.Prelude.{◌≡◌, IfOk};
ghost use Rattle.antipode.specs.Words.{word_of};

use anti_command::{TopFault, antipode, status_of, tell};
use anti_edge::{RealSink, RealSource};
use anti_ids::{List, NoMemory, Value, ValueFault};
use anti_work::Open;
use std::alloc::Global;
use std::process::ExitCode;
use std::rt::Env;
use std::{env, io};

// The word for an argument: its bytes where they are a value, else none.
fn word_of(alloc: Global, argument: &[u8]) -> Result<Value, NoMemory>
    ensures { IfOk result (λ word. word ≡ word_of argument.now) }
{
    match Value::new(alloc, argument) {
        Ok(word) => Ok(word),
        Err(ValueFault::NoMemory) => Err(NoMemory),
        Err(_) => Ok(Value::empty(alloc)),
    }
}

// The arguments without the program's name. Where they can't be read there are none.
fn words_of<R: Env + AllocGlobal>(rt: &R) -> Result<List<Value>, NoMemory> {
    let mut words = List::new(rt.alloc());
    let arguments = match env::args(rt) {
        Ok(arguments) => arguments,
        Err(error) if error.kind() == io::ErrorKind::OutOfMemory => return Err(NoMemory),
        Err(_) => return Ok(words),
    };
    for argument in arguments.skip(1) {
        if words
            .push(word_of(rt.alloc(), argument.as_bytes())?)
            .is_err()
        {
            return Err(NoMemory);
        }
    }
    Ok(words)
}

fn main(rt: HostRuntime) -> ExitCode {
    let mut src = RealSource::new(rt.stdin());
    let mut out = RealSink::new(rt.stdout());
    let mut err = RealSink::new(rt.stderr());
    let status = match words_of(&rt) {
        Ok(words) => antipode(
            &rt,
            rt.alloc(),
            words.as_slice(),
            &mut src,
            &mut out,
            &mut err,
            &Open,
        )
        .into_status(),
        Err(NoMemory) => {
            tell(&mut err, TopFault::NoMemory);
            status_of(Some(TopFault::NoMemory))
        }
    };
    ExitCode::from(status)
}
