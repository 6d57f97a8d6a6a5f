use anti_object::Object;
use anti_shared::Pass;

/// What comes back from a worker: its passes, one for each object.
#[derive(Drop)]
pub struct Done {
    pub(crate) passes: Vec<Pass<Object>>,
}
