//! Applications: what the bytes of a document state.
#![tactic(auto)]

mod app;
mod choice;
mod document;
mod named;
mod number;
mod objects;
mod positions;
mod region;
mod request;
mod reversal;
mod service;
mod store;
mod stored_subs;
mod sub;
mod table_values;

pub use anti_kind::StoreKind;
pub use anti_rules::{Part, Place};
pub use app::{
    App, AppFault, Choice, Choices, HandlerDef, Handlers, Names, Numbers, RequestDef, Requests,
    ServiceDef, Services, StoreDef, Stores, SubDef, SubDefs, Waits,
};
pub use document::read_app;
pub use objects::{
    ObjectAt, body_of, handler_number, has_handler, inbox_number, inbox_of, is_queue_at, is_store,
    object_at, object_count, region_of, service_at, store_names, store_number, stores_here,
};
pub use positions::{number_on, position_on, sub_on};
pub use stored_subs::subs_on;
