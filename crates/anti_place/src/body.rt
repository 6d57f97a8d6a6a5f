ghost use Rattle.std.specs.Prelude.{◌≡◌, ◌==◌, ◌+◌, ◌^◌, ◌<◌, ◌||◌, false, length};
ghost use Rattle.std.specs.List.{filter, list_any};
ghost use Rattle.anti_lang.specs.Blocks.{lines_of};
ghost use Rattle.anti_lang.specs.Bodies.{block_from, step_of};
ghost use Rattle.anti_lang.specs.Steps.{steps_of};
ghost use Rattle.anti_place.specs.Paths.{all_faults, first, height};
ghost use Rattle.anti_place.specs.Reviews.{all_waits};
ghost use Rattle.anti_place.specs.inner.Joined.{by_rows, fault_at, fault_here, fault_in, fault_of, is_later, left, reads_in, reads_of, through, through_block};

use crate::doubt::Doubt;
use crate::fault::{Fault, at_line, earlier, turned_fault};
use crate::flow::Flow;
use crate::reason::Reason;
use crate::search::{Search, Sought};
use anti_lang::Statement;

/// How many lines a statement has, with its block.
#[cycle(heights)]
pub fn height(statement: &Statement) -> u32
    requires { height (step_of statement.now) < 2 ^ 32 }
    ensures { result ≡ height (step_of statement.now) }
{
    match statement {
        Statement::Repeat { body, .. } => lines(body.as_slice()) + 2,
        Statement::IfAbsent { body, .. } => lines(body.as_slice()) + 2,
        _ => 1,
    }
}

// How many lines some statements have.
#[cycle(heights)]
fn lines(statements: &[Statement]) -> u32
    requires { length (lines_of (block_from (steps_of statements.now))) < 2 ^ 32 }
    ensures { result ≡ length (lines_of (block_from (steps_of statements.now))) }
{
    let mut count = 0;
    for statement in statements {
        count += height(statement);
    }
    count
}

// What all ways through a statement do to a doubt.
#[cycle(flows)]
fn through(doubt: &Doubt, statement: &Statement) -> Flow
    ensures { result ≡ through doubt.now (step_of statement.now) }
{
    match statement {
        Statement::Repeat { count, body } => through_block(doubt, body.as_slice()).turned(*count),
        Statement::IfAbsent { body, .. } => through_block(doubt, body.as_slice()).or_passed(),
        _ => doubt.after(statement),
    }
}

// What all ways through some statements do to a doubt.
#[cycle(flows)]
fn through_block(doubt: &Doubt, statements: &[Statement]) -> Flow
    ensures { result ≡ through_block doubt.now (block_from (steps_of statements.now)) }
{
    let mut flow = Flow::Keeps;
    for statement in statements {
        flow = flow.then(through(doubt, statement));
    }
    flow
}

// The fault of a statement without a block. Inlined, since it is looked for at each line by each doubt.
#[inline(always)]
fn fault_here(
    search: &Search,
    doubt: &Doubt,
    line: u32,
    statement: &Statement,
    held: bool,
) -> Option<Fault>
    ensures { result ≡ fault_here search.now doubt.now line (step_of statement.now) held }
{
    if !held {
        return None;
    }
    match doubt.fails(search.sought, statement) {
        Some(reason) => at_line(search.after, line, reason),
        None => None,
    }
}

// Whether a doubt is held where the block of a `repeat` begins: before its first turn, or behind one.
fn entered(doubt: &Doubt, block: &[Statement], held: bool) -> bool
    ensures { result ≡
        (held || left (through_block doubt.now (block_from (steps_of block.now))) held) }
{
    held || through_block(doubt, block).leaves(held)
}

// The first fault of a statement, by one doubt.
#[cycle(faults)]
fn fault_at(
    search: &Search,
    doubt: &Doubt,
    line: u32,
    statement: &Statement,
    held: bool,
) -> Option<Fault>
    requires { line + height (step_of statement.now) < 2 ^ 32 }
    ensures { result ≡ fault_at search.now doubt.now line (step_of statement.now) held }
{
    match statement {
        Statement::Repeat { count, body } => {
            let held = entered(doubt, body.as_slice(), held);
            let fault = fault_in(search, doubt, line + 1, body.as_slice(), held);
            turned_fault(*count, fault)
        }
        Statement::IfAbsent { body, .. } => fault_in(
            search,
            doubt,
            line + 1,
            body.as_slice(),
            held,
        ),
        _ => fault_here(search, doubt, line, statement, held),
    }
}

// The first fault of some statements, by one doubt.
#[cycle(faults)]
fn fault_in(
    search: &Search,
    doubt: &Doubt,
    line: u32,
    statements: &[Statement],
    held: bool,
) -> Option<Fault>
    requires { line + length (lines_of (block_from (steps_of statements.now))) < 2 ^ 32 }
    ensures { result ≡ fault_in search.now doubt.now line (block_from (steps_of statements.now)) held }
{
    let mut found = None;
    let mut here = line;
    let mut held = held;
    for statement in statements {
        found = earlier(found, fault_at(search, doubt, here, statement, held));
        let flow = through(doubt, statement);
        if flow.stops() {
            return found;
        }
        held = flow.leaves(held);
        here += height(statement);
    }
    found
}

// The first fault of a body, by one doubt. Its end counts as a `nack` behind its last line.
fn fault_of(search: &Search, doubt: &Doubt, body: &[Statement], held: bool) -> Option<Fault>
    requires { length (lines_of (block_from (steps_of body.now))) < 2 ^ 31 }
    ensures { result ≡ fault_of search.now doubt.now (block_from (steps_of body.now)) held }
{
    let found = fault_in(search, doubt, 1, body, held);
    let flow = through_block(doubt, body);
    if flow.stops() {
        return found;
    }
    let end = lines(body) + 1;
    earlier(
        found,
        fault_here(search, doubt, end, &Statement::Nack, flow.leaves(held)),
    )
}

// The first fault of a body by the rows of each variable that a statement reads into.
#[cycle(rows)]
fn fault_of_read(search: &Search, statement: &Statement, body: &[Statement]) -> Option<Fault>
    requires { length (lines_of (block_from (steps_of body.now))) < 2 ^ 31 }
    ensures { result ≡
        by_rows (λ doubt. fault_of search.now doubt (block_from (steps_of body.now)) false) (reads_in (step_of statement.now)) }
{
    match statement {
        Statement::Read { variable, .. } => fault_of(search, &Doubt::Rows(*variable), body, false),
        Statement::Scan { variable, .. } => fault_of(search, &Doubt::Rows(*variable), body, false),
        Statement::Poll { variable, .. } => fault_of(search, &Doubt::Rows(*variable), body, false),
        Statement::Repeat { body: block, .. } => fault_of_reads(search, block.as_slice(), body),
        Statement::IfAbsent { body: block, .. } => fault_of_reads(search, block.as_slice(), body),
        _ => None,
    }
}

// The first fault of a body by the rows of each variable that some statements read into.
#[cycle(rows)]
fn fault_of_reads(search: &Search, statements: &[Statement], body: &[Statement]) -> Option<Fault>
    requires { length (lines_of (block_from (steps_of body.now))) < 2 ^ 31 }
    ensures { result ≡
        by_rows (λ doubt. fault_of search.now doubt (block_from (steps_of body.now)) false)
        (reads_of (block_from (steps_of statements.now))) }
{
    let mut found = None;
    for statement in statements {
        found = earlier(found, fault_of_read(search, statement, body));
    }
    found
}

/// The first fault of a body behind another on any way through it, in a handler that is called or not, and named or not; its first
/// fault where there is no other.
pub fn next_fault(
    called: bool,
    named: bool,
    after: Option<Fault>,
    body: &[Statement],
) -> Option<Fault>
    requires { length (lines_of (block_from (steps_of body.now))) < 2 ^ 31 }
    ensures { result ≡
        first (filter (is_later after) (all_faults called named (block_from (steps_of body.now)))) }
{
    let search = Search {
        sought: Sought::Faults { called },
        after,
    };
    let always = fault_of(&search, &Doubt::Always, body, true);
    let unsettled = fault_of(&search, &Doubt::Unsettled, body, named);
    earlier(
        always,
        earlier(unsettled, fault_of_reads(&search, body, body)),
    )
}

/// Whether the barrier at a line of a body has to wait on some way through it, in a handler that is named or not.
pub fn waits_at(named: bool, line: u32, body: &[Statement]) -> bool
    requires { length (lines_of (block_from (steps_of body.now))) < 2 ^ 31 }
    ensures { result ≡
        list_any (λ waits. waits == line) (all_waits named (block_from (steps_of body.now))) }
{
    // behind the faults of this line that are told before the one that is sought
    let before = Fault {
        line,
        reason: Reason::Untransferred,
    };
    let search = Search {
        sought: Sought::Waits,
        after: Some(before),
    };
    match fault_of(&search, &Doubt::Unsettled, body, named) {
        Some(found) => found.line == line,
        None => false,
    }
}
