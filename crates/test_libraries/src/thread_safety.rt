use anti_ids::{Bytes, Lineage, Value};
use anti_kind::Recorded;
use anti_kv::Kv;

// Stands for a type whose values may be sent to another thread.
fn may_be_sent<T: Send>() {}

#[test]
fn values_and_objects_may_be_sent() {
    may_be_sent::<Lineage>();
    may_be_sent::<Value>();
    may_be_sent::<Bytes>();
    may_be_sent::<Recorded<Kv>>();
}
