ghost use Rattle.std.specs.Prelude.{◌≡◌, ◌^◌, ◌<◌, ◌++◌, length, map, OnOk};
ghost use Rattle.anti_lang.specs.Blocks.{lines_of};
ghost use Rattle.anti_lang.specs.Bodies.{block_from};
ghost use Rattle.anti_lang.specs.Steps.{steps_of};
ghost use Rattle.anti_place.specs.Reviews.{fails_there, faults_of};

use crate::body::next_fault;
use crate::fault::Fault;
use crate::remark::{Finding, Remark};
use crate::targets::Target;
use anti_ids::{List, NoMemory};
use anti_lang::Statement;

// A fault of a handler as a remark.
fn remark_of(target: Target, fault: Fault) -> Remark
    requires service { target.service < 2 ^ 32 }
    requires handler { target.handler < 2 ^ 32 }
    ensures { result ≡ fails_there target.service target.handler fault }
{
    Remark {
        service: target.service as u32,
        handler: target.handler as u32,
        line: fault.line,
        finding: Finding::Fails(fault.reason),
    }
}

/// Adds the faults of a handler with this body, which is called or not, and named or not.
pub fn add_faults(
    remarks: &mut List<Remark>,
    target: Target,
    called: bool,
    named: bool,
    body: &[Statement],
) -> Result<(), NoMemory>
    requires service { target.service < 2 ^ 32 }
    requires handler { target.handler < 2 ^ 32 }
    requires short { length (lines_of (block_from (steps_of body.now))) < 2 ^ 31 }
    ensures { OnOk result (remarks.new.items ≡ remarks.old.items
        ++ map (fails_there target.service target.handler) (faults_of called named (block_from (steps_of body.now)))) }
{
    let mut after = None;
    while let Some(fault) = next_fault(called, named, after, body) {
        remarks.add(remark_of(target, fault))?;
        after = Some(fault);
    }
    Ok(())
}
