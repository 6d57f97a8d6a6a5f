ghost use Rattle.std.specs.Prelude.{◌≡◌, ◌≤◌, [], ◌∷◌, length, map, IfOk, IsOk};
ghost use Rattle.anti_ids.specs.List.{plain};
ghost use Rattle.anti_lang.specs.Parsing.{parsed};
ghost use Rattle.anti_lang.specs.Parses.{texts_of};
ghost use Rattle.anti_app.specs.Parts.{body_in};
ghost use Rattle.anti_load.specs.Load.{poster, reader, service};

use crate::lists::{one, two};
use crate::names::name_of;
use anti_app::{HandlerDef, ServiceDef};
use anti_ids::{Bytes, List, MOST_LINES, Name, NoMemory};
use anti_lang::{Body, LangFault, Lines, parse};
use std::alloc::Global;

/// The services: the poster, and the reader of its notes.
pub fn services(alloc: Global) -> Result<List<ServiceDef>, NoMemory>
    ensures { IfOk result (λ services. services ≡ plain (poster ∷ reader ∷ [])) }
{
    two(alloc, poster(alloc)?, reader(alloc)?)
}

// The lines of some texts.
fn lines_of(alloc: Global, texts: &[&str]) -> Result<Lines, NoMemory>
    ensures { IfOk result (λ lines. texts_of lines ≡ map (λ text. text.now) texts.now) }
{
    let mut lines = List::new(alloc);
    for text in texts {
        let mut line = Bytes::new(alloc);
        line.append(text.as_bytes())?;
        lines.add(line)?;
    }
    Ok(lines)
}

// The body that the lines of some texts state.
fn body_of(alloc: Global, texts: &[&str]) -> Result<Body, NoMemory>
    requires few { length texts.now ≤ MOST_LINES }
    requires stated { IsOk (parsed (map (λ text. text.now) texts.now)) }
    ensures { IfOk result (λ body. body ≡ body_in (map (λ text. text.now) texts.now)) }
{
    let lines = lines_of(alloc, texts)?;
    match parse(alloc, &lines) {
        Ok(body) => Ok(body),
        Err(LangFault::NoMemory) => Err(NoMemory),
        // the lines state a body
        Err(_) => unreachable!(),
    }
}

// A service with one handler.
fn service(
    alloc: Global,
    name: Name,
    region: u32,
    handler: Name,
    body: Body,
) -> Result<ServiceDef, NoMemory>
    ensures { IfOk result (λ made. made ≡ service name region handler body) }
{
    let handlers = one(
        alloc,
        HandlerDef {
            name: handler,
            body,
        },
    )?;
    Ok(ServiceDef {
        name,
        region,
        handlers,
    })
}

// The service that writes posts and notes of them.
fn poster(alloc: Global) -> Result<ServiceDef, NoMemory>
    ensures { IfOk result (λ made. made ≡ poster) }
{
    let body = body_of(
        alloc,
        &[
            "read posts $in as x",
            "transfer x",
            "write posts $in v",
            "write notes n $in",
        ],
    )?;
    service(alloc, name_of("poster"), 0, name_of("post"), body)
}

// The service that the notes start.
fn reader(alloc: Global) -> Result<ServiceDef, NoMemory>
    ensures { IfOk result (λ made. made ≡ reader) }
{
    let body = body_of(alloc, &["barrier", "read posts $in as y"])?;
    service(alloc, name_of("reader"), 1, name_of("note"), body)
}
