use anti_ids::{List, Name, Value};

/// What stands for a key in a line.
#[derive(Drop)]
pub enum KeyWord {
    /// `$in`: the value of the message that the handler runs for.
    Input,
    /// `$X`: what the variable X stands for.
    Of(Name),
    /// The key itself.
    Plain(Name),
}

/// What stands for a value in a line.
#[derive(Drop)]
pub enum ValueWord {
    /// `$in`: the value of the message that the handler runs for.
    Input,
    /// `$X`: what the variable X stands for.
    Of(Name),
    /// The value itself, of 1 to 256 bytes.
    Literal(Value),
}

/// A statement of a handler, with the block that it opens where it opens one. Stores, services, handlers, keys and variables are plain
/// names but for a key of `poll`, and no variable is called `in`.
#[derive(Drop)]
pub enum Statement {
    /// `write S K V`, `write S K V as X`, `write S K V as X untracked`: writes the value V to the key K of the store S. Then it
    /// appends the id of the write to the lineage, unless it is untracked. The variable X, where there is one, holds the write.
    Write {
        store: Name,
        key: KeyWord,
        value: ValueWord,
        variable: Option<Name>,
        untracked: bool,
    },
    /// `append X`: appends the id of the write X to the lineage.
    Append(Name),
    /// `remove X`: takes the id of the write X out of the lineage.
    Remove(Name),
    /// `transfer X`: the lineage takes in what the rows in X stand for: their ids and the lineages that are stored beside them.
    Transfer(Name),
    /// `barrier`: goes on once each write of the lineage is visible in the service's region, of the stores that have a replica
    /// there.
    Barrier,
    /// `dryrun`: makes the looks of a barrier, and goes on whatever they find.
    DryRun,
    /// `read S K as X`: reads the key K of the store S. The variable X holds the row.
    Read {
        store: Name,
        key: KeyWord,
        variable: Name,
    },
    /// `scan S P as X`: reads the rows of all keys of the store S with the prefix P. The variable X holds them.
    Scan {
        store: Name,
        prefix: Name,
        variable: Name,
    },
    /// `poll S K as X`: reads the cell K of the store S, whether a subscription has pulled it or not. The
    /// variable X holds the row.
    Poll {
        store: Name,
        key: KeyWord,
        variable: Name,
    },
    /// `call SV H V as X`: calls the handler H of the service SV with the value V, and takes its reply. The variable X holds it.
    Call {
        service: Name,
        handler: Name,
        value: ValueWord,
        variable: Name,
    },
    /// `send SV H V`: sends the value V to the handler H of the service SV, and waits for nothing.
    Send {
        service: Name,
        handler: Name,
        value: ValueWord,
    },
    /// `reply V`: what the handler will reply with, unless a later one says otherwise. The handler goes on.
    Reply(ValueWord),
    /// `nack`: ends the handler.
    Nack,
    /// `root`: begins a new span, with an empty lineage. Directly behind `stop` it changes nothing more.
    Root,
    /// `stop`: gives the lineage up, and begins a new span.
    Stop,
    /// `repeat N` to `end`: so many turns of the block, 1 to 16.
    Repeat {
        count: u32,
        body: Body,
    },
    /// `if X absent` to `end`: the block, unless some row of X has a version.
    IfAbsent {
        variable: Name,
        body: Body,
    },
}

/// The statements of a handler or of a block, in their order.
pub type Body = List<Statement>;
