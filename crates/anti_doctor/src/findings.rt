ghost use Rattle.std.specs.Prelude.{◌≡◌, ◌<◌, length, map, All, IfOk, OnOk};
ghost use Rattle.anti_ids.specs.ListCalls.{pushed};
ghost use Rattle.anti_doctor.specs.Diagnoses.{AreFindingsOf};
ghost use Rattle.anti_doctor.specs.inner.Findings.{pair_of, with_finding, with_findings};

use crate::diagnosis::{Finding, Findings};
use anti_ids::NoMemory;
use anti_order::mark_at;
use anti_trace::Trace;
use indexmap::IndexMap;
use std::alloc::Global;

/// Writes that were missed, by their places, each with the place of the first read that missed it, in the order in which they were found.
pub type Found = IndexMap<u32, u32>;

// Notes a write that a read misses, unless one before missed it.
fn note(found: &mut Found, write: u32, read: u32) -> Result<(), NoMemory>
    ensures { OnOk result (found.new.entries ≡ with_finding read write found.old.entries) }
{
    if found.contains_key(&write) {
        return Ok(());
    }
    match found.insert(write, read) {
        Ok(_) => Ok(()),
        Err(_) => Err(NoMemory),
    }
}

/// Notes the writes that a read misses.
pub fn note_all(found: &mut Found, read: u32, missed: &[u32]) -> Result<(), NoMemory>
    ensures { OnOk result (found.new.entries ≡ with_findings read missed.now found.old.entries) }
{
    for write in missed {
        note(found, *write, read)?;
    }
    Ok(())
}

// Adds a finding at the end.
fn add(findings: &mut Findings, finding: Finding) -> Result<(), NoMemory>
    ensures { OnOk result (findings.new ≡ pushed findings.old finding) }
{
    match findings.push(finding) {
        Ok(()) => Ok(()),
        Err(_) => Err(NoMemory),
    }
}

/// What was found, by the marks of the reads and the writes.
pub fn told(alloc: Global, trace: &Trace, found: &Found) -> Result<Findings, NoMemory>
    requires { All (λ e. (e.0 < length trace.now) × (e.1 < length trace.now)) found.now.entries }
    ensures { IfOk result (λ findings. AreFindingsOf trace.now (map pair_of found.now.entries) findings.items) }
{
    let mut findings = Findings::new(alloc);
    for (write, read) in found {
        let finding = Finding {
            read: mark_at(trace, *read),
            write: mark_at(trace, *write),
        };
        add(&mut findings, finding)?;
    }
    Ok(findings)
}
