ghost use Rattle.std.specs.Prelude.{◌≡◌, Some};
ghost use Rattle.anti_place.specs.Paths.{earlier, is_before, rank};
ghost use Rattle.anti_place.specs.inner.Joined.{at_line, is_later, turned_fault};

use crate::reason::Reason;

/// A line of a body that fails, and why.
#[derive(Clone, Copy)]
pub struct Fault {
    /// The line in the body, counted from 1. The end of the body has the line behind its last one.
    pub line: u32,
    /// Why it fails.
    pub reason: Reason,
}

// The rank of a reason among those of one line.
fn rank(reason: Reason) -> u32
    ensures { result ≡ rank reason }
{
    match reason {
        Reason::Removed => 0,
        Reason::Untracked => 1,
        Reason::Untransferred => 2,
        Reason::Unsettled => 3,
    }
}

// Whether a fault is told before another.
fn is_before(a: Fault, b: Fault) -> bool
    ensures { result ≡ is_before a b }
{
    a.line < b.line || (a.line == b.line && rank(a.reason) < rank(b.reason))
}

/// The one of two faults that is told first.
pub fn earlier(a: Option<Fault>, b: Option<Fault>) -> Option<Fault>
    ensures { result ≡ earlier a b }
{
    let Some(one) = a else {
        return b;
    };
    let Some(other) = b else {
        return a;
    };
    if is_before(other, one) { b } else { a }
}

// Whether a fault is told behind another, where there is one.
fn is_later(after: Option<Fault>, fault: Fault) -> bool
    ensures { result ≡ is_later after fault }
{
    match after {
        Some(other) => is_before(other, fault),
        None => true,
    }
}

/// A reason as a fault of a line, where that is told behind another.
pub fn at_line(after: Option<Fault>, line: u32, reason: Reason) -> Option<Fault>
    ensures { result ≡ at_line after line (Some reason) }
{
    let fault = Fault { line, reason };
    if is_later(after, fault) {
        Some(fault)
    } else {
        None
    }
}

/// The fault of a block, where it has some turn.
pub fn turned_fault(count: u32, fault: Option<Fault>) -> Option<Fault>
    ensures { result ≡ turned_fault count fault }
{
    match count {
        0 => None,
        _ => fault,
    }
}
