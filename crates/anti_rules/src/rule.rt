/// A rule of the format, in the order in which the rules are tried.
#[derive(Clone, Copy)]
pub enum Rule {
    /// No table has a key that the format does not list for it.
    Listed,
    /// Each key without a default is there.
    There,
    /// What stands at a key, and each element of an array, has its type.
    Typed,
    /// Each array has as many elements as the format allows.
    Counted,
    /// The numbers are in their ranges.
    Ranged,
    /// The names and the channels are plain.
    PlainNames,
    /// No two regions have the same name.
    DistinctRegions,
    /// No two stores or services have the same name.
    DistinctObjects,
    /// No two handlers of a service have the same name.
    DistinctHandlers,
    /// No two subs have the same name.
    DistinctSubs,
    /// The kind of a store is one of those that there are.
    StoreKinds,
    /// The replicas of a store are regions, each named once.
    Replicas,
    /// Only a store that hands a message out again has `tries`, and only one with caches has `room`.
    KindKeys,
    /// The region of a service is one of the regions.
    ServiceRegions,
    /// The store of a sub is there, and of a kind that subscriptions pull from.
    SubStores,
    /// The service of a sub is there and has the handler.
    SubHandlers,
    /// The store of a sub has a replica where the sub's service is.
    SubReplicas,
    /// The service of a request is there and has the handler.
    RequestHandlers,
    /// The value of a request is not too long.
    RequestValues,
    /// Each line of a body is a statement.
    Statements,
    /// The blocks of a body are right.
    Blocks,
    /// The variables of a body are right.
    Variables,
    /// The store of a statement is there and of a kind that allows it.
    StatementStores,
    /// The service of a `call` or a `send` is there and has the handler.
    StatementHandlers,
}
