ghost use Rattle.std.specs.Prelude.{◌≡◌, ◌≤◌, [], false, length, is_some};
ghost use Rattle.std.specs.List.{cons_option};
ghost use Rattle.std.specs.Option.{option_map_or};
ghost use Rattle.anti_lang.specs.Bodies.{step_of};
ghost use Rattle.anti_lang.specs.Lines.{Does};
ghost use Rattle.anti_lang.specs.Stated.{stated, all_stated};
ghost use Rattle.anti_lang.specs.Faults.{variable_fault, near, set_by, held_in, key_is_held, value_is_held, is_kind, are_held, has_wrong_variable};
ghost use Rattle.anti_lang.specs.inner.Known.{begins_span, reach_after, all_after, known_after};
ghost use Rattle.anti_lang.specs.declared.variable.Holds.TheVariants as holds;

use crate::line::Line;
use crate::statement::{KeyWord, Statement, ValueWord};
use anti_ids::{MOST_LINES, Name};

/// What a variable holds.
#[derive(Clone, Copy)]
pub(crate) enum Holds {
    /// The write of a `write`.
    Write,
    /// The rows of a `read`, `scan` or `poll`.
    Rows,
    /// The reply to a `call`.
    Reply,
}

/// A variable of a body.
#[derive(Clone, Copy)]
pub(crate) struct Variable {
    pub name: Name,
    pub kind: Holds,
}

// The variable that a statement sets.
fn set_by_statement(statement: &Statement) -> Option<Variable>
    ensures { result ≡ set_by (Does (step_of statement.now)) }
{
    let (name, kind) = match statement {
        Statement::Write {
            variable: Some(name),
            ..
        } => (name, Holds::Write),
        Statement::Read { variable, .. } => (variable, Holds::Rows),
        Statement::Scan { variable, .. } => (variable, Holds::Rows),
        Statement::Poll { variable, .. } => (variable, Holds::Rows),
        Statement::Call { variable, .. } => (variable, Holds::Reply),
        _ => return None,
    };
    Some(Variable { name: *name, kind })
}

// The variable that a line sets.
fn set_by(line: &Line) -> Option<Variable>
    ensures { result ≡ set_by (stated line.now) }
{
    match line {
        Line::Does(statement) => set_by_statement(statement),
        _ => None,
    }
}

// Whether a line begins a new span.
fn begins_span(line: &Line) -> bool
    ensures { result ≡ begins_span (stated line.now) }
{
    match line {
        Line::Does(Statement::Root) => true,
        Line::Does(Statement::Stop) => true,
        _ => false,
    }
}

// What the line sets the variable to, where it sets it.
fn held_by(line: &Line, name: &Name) -> Option<Holds>
    ensures { result ≡ held_in (cons_option (set_by (stated line.now)) []) name.now }
{
    match set_by(line) {
        Some(variable) if variable.name.bytes() == name.bytes() => Some(variable.kind),
        _ => None,
    }
}

// Whether one of some lines sets the variable.
fn is_set(lines: &[Line], name: &Name) -> bool
    ensures { result ≡ is_some (held_in (all_after (all_stated lines.now)) name.now) }
{
    let mut above = lines;
    while let [front @ .., line] = above {
        if held_by(line, name).is_some() {
            return true;
        }
        above = front;
    }
    false
}

// What the variable holds below some lines, by the nearest line that sets it in a block that has not ended, with no new span between.
fn held(lines: &[Line], name: &Name) -> Option<Holds>
    ensures { result ≡ held_in (near (reach_after (all_stated lines.now))) name.now }
{
    let mut above = lines;
    let mut ended: usize = 0;
    while let [front @ .., line] = above {
        above = front;
        match line {
            Line::End => ended += 1,
            Line::Repeat(_) => ended = ended.saturating_sub(1),
            Line::IfAbsent(_) => ended = ended.saturating_sub(1),
            Line::Does(_) => {
                if ended == 0 {
                    if begins_span(line) {
                        return None;
                    }
                    if let Some(kind) = held_by(line, name) {
                        return Some(kind);
                    }
                }
            }
        }
    }
    None
}

// Whether the lines above set what a key word stands for.
fn key_is_held(above: &[Line], key: &KeyWord) -> bool
    ensures { result ≡ key_is_held (near (reach_after (all_stated above.now))) key.now }
{
    match key {
        KeyWord::Of(variable) => held(above, variable).is_some(),
        KeyWord::Input => true,
        KeyWord::Plain(_) => true,
    }
}

// Whether the lines above set what a value word stands for.
fn value_is_held(above: &[Line], value: &ValueWord) -> bool
    ensures { result ≡ value_is_held (near (reach_after (all_stated above.now))) value.now }
{
    match value {
        ValueWord::Of(variable) => held(above, variable).is_some(),
        ValueWord::Input => true,
        ValueWord::Literal(_) => true,
    }
}

// Whether the lines above set the variable to a write.
fn is_write(above: &[Line], variable: &Name) -> bool
    ensures { result ≡ is_kind holds.Write (held_in (near (reach_after (all_stated above.now))) variable.now) }
{
    matches!(held(above, variable), Some(Holds::Write))
}

// Whether the lines above set the variable to rows.
fn is_rows(above: &[Line], variable: &Name) -> bool
    ensures { result ≡ is_kind holds.Rows (held_in (near (reach_after (all_stated above.now))) variable.now) }
{
    matches!(held(above, variable), Some(Holds::Rows))
}

// Whether the lines above set each variable that a statement uses, to what it needs.
fn are_held_by_statement(above: &[Line], statement: &Statement) -> bool
    ensures { result ≡ are_held (near (reach_after (all_stated above.now))) (Does (step_of statement.now)) }
{
    match statement {
        Statement::Write { key, value, .. } => key_is_held(above, key)
            && value_is_held(above, value),
        Statement::Append(variable) => is_write(above, variable),
        Statement::Remove(variable) => is_write(above, variable),
        Statement::Transfer(variable) => is_rows(above, variable),
        Statement::Read { key, .. } => key_is_held(above, key),
        Statement::Poll { key, .. } => key_is_held(above, key),
        Statement::Call { value, .. } => value_is_held(above, value),
        Statement::Send { value, .. } => value_is_held(above, value),
        Statement::Reply(value) => value_is_held(above, value),
        _ => true,
    }
}

// Whether the lines above set each variable that a line uses, to what the line needs.
fn are_held(above: &[Line], line: &Line) -> bool
    ensures { result ≡ are_held (near (reach_after (all_stated above.now))) (stated line.now) }
{
    match line {
        Line::Does(statement) => are_held_by_statement(above, statement),
        Line::IfAbsent(variable) => is_rows(above, variable),
        _ => true,
    }
}

// Whether one of the lines above sets the variable that a line sets.
fn is_set_again(above: &[Line], line: &Line) -> bool
    ensures { result ≡ option_map_or (λ v. is_some (held_in (all_after (all_stated above.now)) v.name)) (set_by (stated line.now)) false }
{
    match set_by(line) {
        Some(variable) => is_set(above, &variable.name),
        None => false,
    }
}

// Whether a line is wrong below the lines above it.
fn is_wrong(above: &[Line], line: &Line) -> bool
    ensures { result ≡ has_wrong_variable (known_after (all_stated above.now)) (stated line.now) [] }
{
    is_set_again(above, line) || !are_held(above, line)
}

/// The first line, counted from 1, at which a variable is wrong.
#[tactic(auto, unfolding(crate::specs::Faults::variable_fault))]
pub(crate) fn variable_fault(lines: &[Line]) -> Option<u32>
    requires { length lines.now ≤ MOST_LINES }
    ensures { result ≡ variable_fault (all_stated lines.now) }
{
    for (i, line) in lines.iter().enumerate() {
        if is_wrong(&lines[..i], line) {
            return Some(i as u32 + 1);
        }
    }
    None
}
