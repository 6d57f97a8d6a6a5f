use crate::actor::Actor;
use crate::call::Call;

/// What is asked at an object: the number of the object, who asks, in which span, 0 for a carrier, the last stamp of the one who
/// asks, and the call.
#[derive(Drop)]
pub struct Asking {
    pub object: u32,
    pub actor: Actor,
    pub span: u32,
    pub clock: u64,
    pub call: Call,
}
