ghost use Rattle.std.specs.Prelude.{◌≡◌, ◌++◌, IfOk, OnOk};
ghost use Rattle.std.specs.List.{flat_map};
ghost use Rattle.anti_ids.specs.List.{plain};
ghost use Rattle.anti_text.specs.Sessions.{session_line, sessions_text};

use crate::mark_texts::MarkTexts;
use crate::output::Output;
use crate::printer::marked;
use crate::record_text::end_line;
use crate::span_lines::answered_line;
use anti_app::{App, Waits};
use anti_ids::{Bytes, NoMemory};
use anti_order::SpanAnswer;
use anti_report::Form;
use anti_session::session_answers;
use anti_trace::{Aftermath, Trace};
use std::alloc::Global;

// Writes the lines of sessions.
fn session_lines(
    out: &mut Output,
    texts: &MarkTexts,
    sessions: &[SpanAnswer],
) -> Result<(), NoMemory>
    ensures { OnOk result
        (out.new ≡ out.old ++ flat_map (session_line texts.now.app.now) sessions.now) }
{
    for answered in sessions {
        answered_line(out, texts, b"session ", answered)?;
    }
    Ok(())
}

// The text of sessions of a run with so many entries.
fn printed(
    alloc: Global,
    app: &App,
    entries: u32,
    sessions: &[SpanAnswer],
) -> Result<Bytes, NoMemory>
    ensures { IfOk result (λ t. t ≡ plain (sessions_text app.now entries sessions.now)) }
{
    let texts = MarkTexts::of(alloc, app, marked(sessions))?;
    let mut out = Output::new(alloc);
    out.put(b"sessions 1\n")?;
    session_lines(&mut out, &texts, sessions)?;
    end_line(&mut out, entries)?;
    Ok(out.into_bytes())
}

/// What the sessions of a run saw, as text: a line for each.
pub struct SessionText;

impl Form for SessionText {
    ghost use Rattle.anti_text.specs.Sessions.{PrintsSessions};

    ghost prints = { λ app trace waits. PrintsSessions app trace };

    fn print(
        alloc: Global,
        app: &App,
        trace: &Trace,
        _waits: &Waits,
        after: Aftermath,
    ) -> Result<Bytes, NoMemory> {
        let sessions = session_answers(alloc, app, trace, &after.trail)?;
        printed(alloc, app, trace.len(), sessions.as_slice())
    }
}
