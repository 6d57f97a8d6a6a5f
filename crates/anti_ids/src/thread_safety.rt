// What this crate hands out may be sent to another thread and seen from two: its calls here are proved under those bounds.
use crate::bytes::Bytes;
use crate::ids::Ids;
use crate::lineage::Lineage;
use crate::list::List;
use crate::name::Name;
use crate::roomy::Roomy;
use crate::value::Value;

fn is_sent<T: Send + Sync>(_it: &T) {}

fn all_are_sent(name: &Name, value: &Value, bytes: &Bytes, lineage: &Lineage) {
    is_sent(name);
    is_sent(value);
    is_sent(bytes);
    is_sent(lineage);
}

fn more_are_sent(roomy: &Roomy, ids: &Ids, list: &List<Lineage>) {
    is_sent(roomy);
    is_sent(ids);
    is_sent(list);
}
