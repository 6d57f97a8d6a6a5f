use std::fmt;

/// A part of a document, in the order in which faults are sought.
#[derive(Clone, Copy, Debug, PartialEq, Eq)]
pub enum Part {
    /// The top of the document.
    Top,
    /// The name of a region.
    Region,
    /// A store.
    Store,
    /// A service.
    Service,
    /// A handler. Handlers are counted over all services together.
    Handler,
    /// A subscription of a handler to a channel.
    Sub,
    /// A request.
    Request,
    /// A choice.
    Choice,
}

/// A place of a document.
#[derive(Clone, Copy, Debug, PartialEq, Eq)]
pub struct Place {
    /// The part.
    pub part: Part,
    /// Which one of its part, counted from 1. The top is item 0. Numbers end at the greatest `u32`.
    pub item: u32,
    /// The line of a body, counted from 1, or 0 where no line is meant.
    pub line: u32,
}

impl fmt::Display for Part {
    fn fmt<W: fmt::Write>(&self, f: &mut fmt::Formatter<W>) -> fmt::Result {
        f.write_str(match self {
            Part::Top => "top",
            Part::Region => "region",
            Part::Store => "store",
            Part::Service => "service",
            Part::Handler => "handler",
            Part::Sub => "sub",
            Part::Request => "request",
            Part::Choice => "choice",
        })
    }
}

impl fmt::Display for Place {
    fn fmt<W: fmt::Write>(&self, f: &mut fmt::Formatter<W>) -> fmt::Result {
        write!(f, "{} {}, line {}", self.part, self.item, self.line)
    }
}
