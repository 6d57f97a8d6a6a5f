ghost use Rattle.std.specs.Prelude.{◌≡◌, ◌≤◌, OnOk, OnErr};
ghost use Rattle.anti_ids.specs.Counts.{Rose};
ghost use Rattle.anti_edge.specs.Outside.{AddsFront, with_bytes};

use crate::failed::Failed;
use crate::sink::Sink;

/// Writes all the bytes, or those before the first failure. It takes no memory.
pub fn write_all<K: Sink>(sink: &mut K, bytes: &[u8]) -> Result<(), Failed>
    ensures ok { OnOk result (K.written sink.new ≡ with_bytes bytes.now (K.written sink.old)) }
    ensures failed { OnErr result (Rose (K.faults sink.old) (K.faults sink.new)) }

    // What stands after any answer.
    ensures front { AddsFront bytes.now (K.written sink.old) (K.written sink.new) }
    ensures count { K.faults sink.old ≤ K.faults sink.new }
{
    let mut rest = bytes;
    while !rest.is_empty() {
        let count = sink.write(rest)?;
        rest = rest.split_at(count).1;
    }
    Ok(())
}
