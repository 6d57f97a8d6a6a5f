use anti_ids::{Copies, Lineage, List, Name, NoMemory, Value};
use std::alloc::Global;

/// What a store shows for a key: the version, with its value and the lineage that is kept beside it. An absent key has version 0,
/// the empty value and the empty lineage.
#[derive(Drop)]
pub struct Row {
    pub key: Name,
    pub version: u64,
    pub value: Value,
    pub lineage: Lineage,
}

/// A list of rows.
pub type Rows = List<Row>;

impl Copies for Row {
    fn copy(&self, alloc: Global) -> Result<Row, NoMemory> {
        let value = self.value.copy(alloc)?;
        let lineage = self.lineage.copy(alloc)?;
        Ok(Row {
            key: self.key,
            version: self.version,
            value,
            lineage,
        })
    }
}
