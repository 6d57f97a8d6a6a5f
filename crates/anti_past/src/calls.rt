ghost use Rattle.std.specs.Prelude.{◌≡◌, []};
ghost use Rattle.std.specs.Option.{option_map_or};
ghost use Rattle.law_causal.specs.Settled.{found_in, region_named};
ghost use Rattle.law_causal.specs.Words.{hands_all, reads};
ghost use Rattle.anti_past.specs.inner.Came.{most_of};
ghost use Rattle.anti_past.specs.inner.Looking.{names_none};

use anti_ids::Lineage;
use anti_kind::{Call, Entry, Reply};

/// Whether a call is a read: of one key, of a prefix, or of a cell.
pub fn reads(call: &Call) -> bool
    ensures { result ≡ reads call.now }
{
    match call {
        Call::Read { .. } | Call::Scan { .. } | Call::Poll { .. } => true,
        _ => false,
    }
}

/// Whether a process is to carry, at a call, all that came to it.
pub fn hands_all(call: &Call) -> bool
    ensures { result ≡ hands_all call.now }
{
    match call {
        Call::Read { .. } | Call::Scan { .. } | Call::Poll { .. } => true,
        Call::Write { .. } | Call::Look { .. } | Call::Post { .. } => true,
        _ => false,
    }
}

/// How many ids an answered call brings at most, where that is known without a look at them: a write that tells nothing of what it keeps
/// its own, and a call that brings no row and no message none.
pub fn most_of(call: &Call, reply: &Reply) -> Option<u32>
    ensures { result ≡ most_of call.now reply.now }
{
    match call {
        Call::Write { .. } => match reply {
            Reply::Written { over: Some(_), .. } => None,
            _ => Some(1),
        },
        Call::Read { .. } | Call::Scan { .. } | Call::Poll { .. } => None,
        Call::Pull { .. } | Call::Repull { .. } => None,
        Call::Take { .. } | Call::TakeReply { .. } => None,
        _ => Some(0),
    }
}

/// The region that a read or a look names; 0 of other calls.
pub fn region_named(call: &Call) -> u32
    ensures { result ≡ region_named call.now }
{
    match call {
        Call::Read { region, .. } => *region,
        Call::Scan { region, .. } => *region,
        Call::Poll { region, .. } => *region,
        Call::Look { region, .. } => *region,
        _ => 0,
    }
}

// Whether the reply to a look names no id as missing.
fn names_none(reply: &Reply) -> bool
    ensures { result ≡ names_none reply.now }
{
    match reply {
        Reply::Missing { missing, .. } => missing.get().is_empty(),
        _ => false,
    }
}

/// The ids that a look found visible, all of them; `None` of another entry, and where some were missing.
pub fn found_in(entry: &Entry) -> Option<&Lineage>
    ensures { option_map_or (λ ids. ids.now) result [] ≡ found_in entry.now.call entry.now.reply }
{
    match &entry.call {
        Call::Look { ids, .. } => {
            if names_none(&entry.reply) {
                Some(ids.get())
            } else {
                None
            }
        }
        _ => None,
    }
}
