use crate::task::Role;
use anti_ids::Value;
use std::alloc::Global;

/// What does not change in a process: the memory that it takes from, which handler it is, and its input.
#[derive(Drop)]
pub struct Given {
    pub alloc: Global,
    pub role: Role,
    pub input: Value,
}
