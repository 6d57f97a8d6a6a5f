ghost use Rattle.std.specs.Prelude.{◌≡◌, ◌<◌, ◌≤◌, length, Err, OnErr, OnOk};
ghost use Rattle.anti_ids.specs.Ids.{with_ids};
ghost use Rattle.anti_ids.specs.declared.limits.TheConstants.{MOST_IDS};
ghost use Rattle.anti_ids.specs.declared.lineage.LineageRefused.TheVariants.{Full};
ghost use Rattle.anti_shim.specs.Shims.{brought_by};

use anti_ids::{Lineage, LineageRefused, WriteId};
use anti_kind::Row;

/// Takes a row of a store over that was read or pulled: its id, where it is that of a write, and what is kept beside it. `Full` only where
/// these and what is carried are more ids than a lineage can have. With a fault the lineage stays.
pub fn transfer_row(lineage: &mut Lineage, store: u32, row: &Row) -> Result<(), LineageRefused>
    ensures ok { OnOk result (lineage.new ≡ with_ids (brought_by store row.now) lineage.old) }
    ensures fits { OnOk result (length (with_ids (brought_by store row.now) lineage.old) ≤ MOST_IDS) }
    ensures full { result ≡ Err Full → MOST_IDS < length (with_ids (brought_by store row.now) lineage.old) }
    ensures err { OnErr result (lineage.new ≡ lineage.old) }
{
    if row.version == 0 {
        return lineage.transfer(&row.lineage);
    }
    let _ascending = lineage.iter(); // so an id that was new can be taken out again
    let id = WriteId {
        store,
        key: row.key,
        version: row.version,
    };
    let is_new = lineage.append(id)?;
    let Err(refused) = lineage.transfer(&row.lineage) else {
        return Ok(());
    };
    if is_new {
        lineage.remove(&id);
    }
    Err(refused)
}
