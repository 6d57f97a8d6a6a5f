ghost use Rattle.std.specs.Prelude.{◌≡◌, ◌++◌, IfOk, OnOk};
ghost use Rattle.std.specs.List.{flat_map};
ghost use Rattle.anti_ids.specs.List.{plain};
ghost use Rattle.anti_text.specs.Reviews.{finding_word, remark_line, review_text};

use crate::output::Output;
use crate::placement::{place_of_line, reason_word};
use anti_app::App;
use anti_ids::{Bytes, NoMemory};
use anti_place::{Finding, Remark};
use std::alloc::Global;

// The word of what is found at a line.
fn finding_word(finding: Finding) -> &'static [u8]
    ensures { result.now ≡ finding_word finding }
{
    match finding {
        Finding::Fails(reason) => reason_word(reason),
        Finding::Superfluous => b"superfluous",
    }
}

// Writes the line of a remark.
fn remark_line(out: &mut Output, app: &App, remark: &Remark) -> Result<(), NoMemory>
    ensures { OnOk result (out.new ≡ out.old ++ remark_line app.now remark.now) }
{
    place_of_line(out, app, remark.service, remark.handler, remark.line)?;
    out.put_all(&[finding_word(remark.finding), b"\n"])
}

// Writes the lines of remarks.
fn remark_lines(out: &mut Output, app: &App, remarks: &[Remark]) -> Result<(), NoMemory>
    ensures { OnOk result (out.new ≡ out.old ++ flat_map (remark_line app.now) remarks.now) }
{
    for remark in remarks {
        remark_line(out, app, remark)?;
    }
    Ok(())
}

/// What is said of the lines of an application, as text. The only error is want of memory.
pub fn review_text(alloc: Global, app: &App, remarks: &[Remark]) -> Result<Bytes, NoMemory>
    ensures { IfOk result (λ t. t ≡ plain (review_text app.now remarks.now)) }
{
    let mut out = Output::new(alloc);
    out.put(b"review 1\n")?;
    remark_lines(&mut out, app, remarks)?;
    out.numbered(b"end ", remarks.len() as u64)?;
    out.put(b"\n")?;
    Ok(out.into_bytes())
}
