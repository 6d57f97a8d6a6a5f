use crate::store_shim::StoreShim;

/// The kinds of store whose rows are read by their keys.
pub trait ReadByKey {}

/// The kinds of store whose messages or cells a subscription pulls, one after another.
pub trait HandsOut {}

/// The kind of key-value stores.
#[derive(Clone, Copy)]
pub struct KvStore;

/// The kind of tables.
#[derive(Clone, Copy)]
pub struct TableStore;

/// The kind of blobs.
#[derive(Clone, Copy)]
pub struct BlobStore;

/// The kind of queues.
#[derive(Clone, Copy)]
pub struct QueueStore;

/// The kind of topics.
#[derive(Clone, Copy)]
pub struct TopicStore;

impl ReadByKey for KvStore {}

impl ReadByKey for TableStore {}

impl ReadByKey for BlobStore {}

impl HandsOut for QueueStore {}

impl HandsOut for TopicStore {}

/// A key-value store, also one whose replicas read through caches, as a caller in a region uses it.
pub type KvShim = StoreShim<KvStore>;

/// A table, as a caller in a region uses it.
pub type TableShim = StoreShim<TableStore>;

/// A store of blobs, as a caller in a region uses it.
pub type BlobShim = StoreShim<BlobStore>;

/// A queue, as a caller in a region uses it.
pub type QueueShim = StoreShim<QueueStore>;

/// A topic, as a caller in a region uses it.
pub type TopicShim = StoreShim<TopicStore>;
