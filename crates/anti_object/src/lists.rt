use crate::object::Object;
use anti_ids::List;
use anti_kind::History;

/// The objects of an application, in the order of their numbers.
pub type Objects = List<Object>;

/// The objects of an application, in the order of their numbers, each with the history of the calls that were made on it.
pub type Kepts = List<(Object, History)>;
