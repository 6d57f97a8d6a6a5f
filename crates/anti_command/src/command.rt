ghost use Rattle.std.specs.Prelude.{◌≡◌, ◌≤◌, ℕ, Some};
ghost use Rattle.anti_command.specs.Words.{command_of, finding_of, load_of, telling_of, word_of};
ghost use Rattle.anti_command.specs.declared.command.Command.TheVariants.{Load};

use anti_ids::{MOST_REQUESTS, Value, read_decimal};

/// What the program is asked to do.
#[derive(Clone, Copy)]
pub enum Command {
    /// Play the choices of the document that is read, and write the record of the run.
    Step,
    /// The same, and write the record as JSON.
    Json,
    /// Let workers play the document that is read, make what they left, and write the record of the run.
    Run,
    /// Play the choices of the document that is read, and write what the sessions of the run saw, each with the calls that it waited for.
    Session,
    /// Play the choices of the document that is read, and write which writes the reads of each span missed, or an order that explains them.
    Doctor,
    /// Tell whether barriers, transfers and roots stand where they must in the document that is read.
    Place,
    /// Tell all lines of the document that is read at which a barrier, a transfer or a root is missing, and all barriers that never have to wait.
    Review,
    /// Look for a run of the document that is read in which a read misses a write, whatever its choices are, and write that run's choices.
    Counterexample,
    /// Play the load of so many requests, 1 to `MOST_REQUESTS`, and write the summary of the run. Nothing is read.
    Load { requests: u32 },
}

// The command that a word asks for, where it asks what is found of a run.
fn finding_of(word: &[u8]) -> Option<Command>
    ensures { result ≡ finding_of word.now }
{
    if word == b"session".as_slice() {
        return Some(Command::Session);
    }
    if word == b"doctor".as_slice() {
        return Some(Command::Doctor);
    }
    None
}

// The command that a word asks for, where it asks what is told of an application or found of a run.
fn telling_of(word: &[u8]) -> Option<Command>
    ensures { result ≡ telling_of word.now }
{
    if word == b"place".as_slice() {
        return Some(Command::Place);
    }
    if word == b"review".as_slice() {
        return Some(Command::Review);
    }
    if word == b"counterexample".as_slice() {
        return Some(Command::Counterexample);
    }
    finding_of(word)
}

// The command that one word asks for.
fn word_of(word: &[u8]) -> Option<Command>
    ensures { result ≡ word_of word.now }
{
    match word {
        b"step" => Some(Command::Step),
        b"json" => Some(Command::Json),
        b"run" => Some(Command::Run),
        _ => telling_of(word),
    }
}

// The load that two words ask for.
fn load_of(word: &[u8], number: &[u8]) -> Option<Command>
    ensures command { result ≡ load_of word.now number.now }
    ensures few { (n : ℕ) → result ≡ Some (Load n) → n ≤ MOST_REQUESTS }
{
    if word != b"load".as_slice() {
        return None;
    }
    let requests = read_decimal(number, 1, MOST_REQUESTS as u64)?;
    Some(Command::Load {
        requests: requests as u32,
    })
}

/// The command that the words ask for: `step`, `json`, `run`, `session`, `doctor`, `place`, `review` or
/// `counterexample`, alone,
/// or `load` and a number. It is `None` where they ask for none.
pub fn asked_for(words: &[Value]) -> Option<Command>
    ensures command { result ≡ command_of words.now }
    ensures few { (n : ℕ) → result ≡ Some (Load n) → n ≤ MOST_REQUESTS }
{
    match words {
        [word] => word_of(word.bytes()),
        [word, number] => load_of(word.bytes(), number.bytes()),
        _ => None,
    }
}
