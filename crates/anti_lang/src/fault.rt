ghost use Rattle.std.specs.Prelude.{◌≡◌};
ghost use Rattle.anti_lang.specs.declared.fault.LangFault.TheVariants as faults;

use anti_ids::NoMemory;
use std::fmt;
use thiserror::Error;

/// What is wrong with a line of a body.
#[derive(Clone, Copy, Debug, PartialEq, Eq)]
pub enum LangCode {
    /// The line is no statement.
    Unknown,
    /// A block is not right: it has no `end`, its `end` has no block, it is the fifth nested one, its lines run more than `MOST_RUNS` times,
    /// `root` or `stop` stands in it; or something other than `root` stands behind `stop`.
    Block,
    /// A variable is not right: it is set twice, or used where it is not set, or used for another kind of thing than it holds.
    Variable,
}

impl fmt::Display for LangCode {
    fn fmt<W: fmt::Write>(&self, f: &mut fmt::Formatter<W>) -> fmt::Result {
        f.write_str(match self {
            LangCode::Unknown => "is no statement",
            LangCode::Block => "has a block that is not right",
            LangCode::Variable => "has a variable that is not right",
        })
    }
}

/// Why lines are no body.
#[derive(Clone, Copy, Debug, PartialEq, Eq, Error)]
pub enum LangFault {
    /// This line, counted from 1, is the first that is wrong so.
    #[error("line {line} {code}")]
    Line { line: u32, code: LangCode },
    /// There was no memory. It says nothing of the lines.
    #[error("no memory")]
    NoMemory,
}

impl LangFault {
    /// This line is wrong so.
    pub(crate) fn at(line: u32, code: LangCode) -> LangFault
        ensures { result ≡ faults.Line line code }
    {
        LangFault::Line { line, code }
    }
}

impl From<NoMemory> for LangFault {
    ghost from_gives = { λ _ fault. fault ≡ faults.NoMemory };

    fn from(_: NoMemory) -> LangFault {
        LangFault::NoMemory
    }
}
