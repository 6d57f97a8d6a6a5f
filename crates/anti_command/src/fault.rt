ghost use Rattle.std.specs.Prelude.{◌≡◌, ◌≤◌, ◌++◌, length, codes, decimal};
ghost use Rattle.anti_command.specs.Conversions.{fault_of};
ghost use Rattle.anti_command.specs.Faults.{status_of};
ghost use Rattle.anti_command.specs.Lines.{line_of, part_word};

use anti_app::{AppFault, Part, Place};
use anti_ids::{LONGEST_LINE, NoMemory};
use arrayvec::ArrayString;
use itoa::Buffer;
use std::error::Error;
use std::fmt;

/// Why a call did not write all that it was asked for.
#[derive(Clone, Copy, Debug, PartialEq, Eq)]
pub enum TopFault {
    /// The words ask for nothing that the program does.
    Usage,
    /// A read failed: the count of faults of the source rose in this call, and not more bytes were taken before than a document has.
    ReadFault,
    /// A write failed: the count of faults of the sink rose in this call. A front of the text was written.
    WriteFault,
    /// The source has more than `LONGEST_DOCUMENT` bytes.
    TooLong,
    /// The bytes are no TOML document.
    NotToml,
    /// The document fails this rule of the format, at this place first.
    BadApp { rule: u32, place: Place },
    /// The choice of this number, counted from 1, is none.
    BadChoice { number: u32 },
    /// Memory ran out before the first byte was written.
    NoMemory,
}

impl From<AppFault> for TopFault {
    ghost use Rattle.anti_command.specs.Conversions.{fault_of};

    ghost from_gives = { λ cause fault. fault ≡ fault_of cause };

    fn from(fault: AppFault) -> TopFault {
        match fault {
            AppFault::NotToml => TopFault::NotToml,
            AppFault::Bad { rule, place } => TopFault::BadApp { rule, place },
            AppFault::BadChoice { number } => TopFault::BadChoice { number },
            AppFault::NoMemory => TopFault::NoMemory,
        }
    }
}

impl From<NoMemory> for TopFault {
    ghost use Rattle.anti_command.specs.declared.fault.TopFault.TheVariants as faults;

    ghost from_gives = { λ _ fault. fault ≡ faults.NoMemory };

    fn from(_: NoMemory) -> TopFault {
        TopFault::NoMemory
    }
}

/// The line of the fault, without its end.
impl fmt::Display for TopFault {
    fn fmt<W: fmt::Write>(&self, f: &mut fmt::Formatter<W>) -> fmt::Result {
        f.write_str(line_of(*self).trim_end())
    }
}

impl Error for TopFault {}

/// The status of the program for a fault, or for none.
pub fn status_of(fault: Option<TopFault>) -> u8
    ensures { result ≡ status_of fault }
{
    match fault {
        None => 0,
        Some(TopFault::Usage) => 2,
        Some(TopFault::ReadFault) => 3,
        Some(TopFault::WriteFault) => 4,
        Some(TopFault::TooLong) => 5,
        Some(TopFault::NotToml) => 5,
        Some(TopFault::BadApp { .. }) => 5,
        Some(TopFault::BadChoice { .. }) => 5,
        Some(TopFault::NoMemory) => 6,
    }
}

// A line of its own, with nothing to fill in.
fn plain_line(text: &str) -> ArrayString<LONGEST_LINE>
    requires { length text.now ≤ LONGEST_LINE }
    ensures { result.bytes ≡ text.now }
{
    let mut line = ArrayString::new();
    line.push_str(text);
    line
}

// The word for a part of a document.
fn part_word(part: Part) -> &'static str
    ensures word { result.now ≡ part_word part }
    ensures short { length result.now ≤ 7 }
{
    match part {
        Part::Top => "top",
        Part::Region => "region",
        Part::Store => "store",
        Part::Service => "service",
        Part::Handler => "handler",
        Part::Sub => "sub",
        Part::Request => "request",
        Part::Choice => "choice",
    }
}

// The line of a rule that fails at a place.
fn app_line(rule: u32, place: Place) -> ArrayString<LONGEST_LINE>
    ensures { result.bytes ≡ codes "app " ++ decimal rule ++ codes " " ++ part_word place.part ++ codes " " ++ decimal place.item ++ codes " " ++ decimal place.line ++ codes "\n" }
{
    let mut line = ArrayString::new();
    line.push_str("app ");
    line.push_str(Buffer::new().format(rule));
    line.push_str(" ");
    line.push_str(part_word(place.part));
    line.push_str(" ");
    line.push_str(Buffer::new().format(place.item));
    line.push_str(" ");
    line.push_str(Buffer::new().format(place.line));
    line.push_str("\n");
    line
}

// The line of a choice that is none.
fn choice_line(number: u32) -> ArrayString<LONGEST_LINE>
    ensures { result.bytes ≡ codes "choice " ++ decimal number ++ codes "\n" }
{
    let mut line = ArrayString::new();
    line.push_str("choice ");
    line.push_str(Buffer::new().format(number));
    line.push_str("\n");
    line
}

/// The line that tells a fault. It is made without memory.
pub fn line_of(fault: TopFault) -> ArrayString<LONGEST_LINE>
    ensures { result.bytes ≡ line_of fault }
{
    match fault {
        TopFault::Usage => plain_line("usage\n"),
        TopFault::ReadFault => plain_line("read fault\n"),
        TopFault::WriteFault => plain_line("write fault\n"),
        TopFault::TooLong => plain_line("too long\n"),
        TopFault::NotToml => plain_line("not toml\n"),
        TopFault::BadApp { rule, place } => app_line(rule, place),
        TopFault::BadChoice { number } => choice_line(number),
        TopFault::NoMemory => plain_line("no memory\n"),
    }
}
