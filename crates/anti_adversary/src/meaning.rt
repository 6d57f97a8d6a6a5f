/// Where a message in an inbox comes from.
#[derive(Clone, Copy, PartialEq, Eq)]
pub(crate) enum Origin {
    /// It is the request of this number in the document, counted from 0.
    Request(usize),
    /// The choice of this number posted it.
    Posted(usize),
}

/// What a choice means, whatever other choices are made before it. It names others by their numbers in a schedule, counted from 0, so that
/// it goes on meaning the same where some of them are left out: places, versions and numbers of deliveries would not.
#[derive(Clone, Copy)]
pub(crate) enum Meaning {
    /// A message is taken from the inbox of a service.
    Takes {
        service: u32,
        origin: Origin,
    },
    /// The next message of a subscription is pulled.
    Pulls {
        sub: u32,
    },
    /// A part of the write that a choice made is moved to a region.
    Ships {
        write: usize,
        region: u32,
        part: Option<u32>,
    },
    /// The write that a choice made comes to a region again.
    ComesAgain {
        write: usize,
        region: u32,
    },
    /// The process goes on that a choice started.
    Goes {
        birth: usize,
    },
}
