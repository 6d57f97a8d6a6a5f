ghost use Rattle.std.specs.Prelude.{◌≡◌, [], true, false, IfOk, IfSome, IsTrue};
ghost use Rattle.anti_app.specs.Running.{CanRun};
ghost use Rattle.anti_lang.specs.Bodies.{block_from, step_of};
ghost use Rattle.anti_lang.specs.Steps.{steps_of};
ghost use Rattle.anti_proc.specs.Local.{held_ids, held_in, removed};
ghost use Rattle.anti_proc.specs.Meaning.{Go, carry, planned};
ghost use Rattle.anti_proc.specs.inner.Quiet.{IsQuiet, IsQuietBlock, KnowsNone, local_with, quiet_in};
ghost use Rattle.anti_proc.specs.inner.Standing.{local_in, setting_in};
ghost use Rattle.anti_proc.specs.inner.Statements.{NoneHere};

use crate::additions::{add, take_out};
use crate::way::Way;
use anti_baggage::Carried;
use anti_ids::{Copies, Lineage, MOST_IDS, Name, NoMemory, Value};
use anti_lang::Statement;
use std::alloc::Global;

/// What quiet lines change, which make no call.
#[derive(Drop)]
pub struct Quiet {
    pub carried: Carried,
    pub reply: Value,
    /// A barrier found that it makes no look, and what is carried brings none since.
    pub none_here: bool,
}

// Whether two lineages have the same ids.
fn are_same_ids(one: &Lineage, other: &Lineage) -> bool
    ensures { IsTrue result → one.now ≡ other.now }
{
    if one.len() != other.len() {
        return false;
    }
    let mut others = other.iter();
    for id in one.iter() {
        let Some(next) = others.next() else {
            return false;
        };
        if next != id {
            return false;
        }
    }
    true
}

impl Quiet {
    // Whether the same is carried, and the same value of the reply is known.
    fn is_as(&self, other: &Quiet) -> bool
        ensures carried { IsTrue result → self.now.carried ≡ other.now.carried }
        ensures reply { IsTrue result → self.now.reply ≡ other.now.reply }
    {
        if self.reply.bytes() != other.reply.bytes() {
            return false;
        }
        are_same_ids(self.carried.lineage(), other.carried.lineage())
    }
}

impl Copies for Quiet {
    fn copy(&self, alloc: Global) -> Result<Quiet, NoMemory> {
        let carried = self.carried.copy(alloc)?;
        let reply = self.reply.copy(alloc)?;
        Ok(Quiet {
            carried,
            reply,
            none_here: self.none_here,
        })
    }
}

impl<'a> Way<'a> {
    // Whether a barrier makes no look.
    fn sees_none(&self, quiet: &mut Quiet) -> Result<bool, NoMemory>
        requires app { CanRun self.now.app.now }
        requires known { KnowsNone self.now quiet.old }
        ensures none { IfOk result (λ none. IsTrue none
            → planned (setting_in self.now) (local_with self.now quiet.new) ≡ []) }
        ensures known { KnowsNone self.now quiet.new }
        ensures same { quiet.new ≡ record quiet.old { none_here = quiet.new.none_here } }
    {
        if quiet.none_here {
            return Ok(true);
        }
        let planned = self.planned(quiet.carried.lineage())?;
        quiet.none_here = planned.is_empty();
        Ok(quiet.none_here)
    }

    // Runs `append` or `transfer` where there are not too many ids then, and tells whether that is so.
    fn join(&self, variable: &Name, quiet: &mut Quiet) -> Result<bool, NoMemory>
        ensures goes { IfOk result (λ all. IsTrue all → (go : Go)
            → carry (held_ids (held_in (local_in self.now).variables variable.now))
            (local_with self.now quiet.old) go ≡ go (local_with self.now quiet.new)) }
        ensures known { quiet.new.none_here ≡ false }
    {
        quiet.none_here = false;
        let stage = add(&mut quiet.carried, self.held(variable))?;
        Ok(stage.is_none())
    }

    // Runs a line without a block where it makes no call, and tells whether that is so.
    fn run_line(&self, statement: &Statement, quiet: &mut Quiet) -> Result<bool, NoMemory>
        requires app { CanRun self.now.app.now }
        requires known { KnowsNone self.now quiet.old }
        ensures goes { IfOk result (λ all. IsTrue all
            → IsQuiet (step_of statement.now) self.now quiet.old quiet.new) }
        ensures known { KnowsNone self.now quiet.new }
    {
        match statement {
            Statement::Barrier => self.sees_none(quiet),
            Statement::DryRun => self.sees_none(quiet),
            Statement::Append(variable) => self.join(variable, quiet),
            Statement::Transfer(variable) => self.join(variable, quiet),
            Statement::Remove(variable) => {
                take_out(&mut quiet.carried, self.held(variable));
                Ok(true)
            }
            Statement::Reply(value) => {
                quiet.reply = self.text_of(value)?;
                Ok(true)
            }
            _ => Ok(false),
        }
    }
}

// How many lines a turn of a block runs, a `repeat` in it counted by its own lines alone.
fn runs_of(block: &[Statement]) -> u64 {
    let mut runs: u64 = 0;
    for statement in block {
        let more = match statement {
            Statement::Repeat { count, body } => {
                u64::from(*count).saturating_mul(body.as_slice().len() as u64)
            }
            _ => 1,
        };
        runs = runs.saturating_add(more);
    }
    runs
}

// Whether the turns of a block run so many lines that it pays to compare what two of them leave, which may be `MOST_IDS` ids.
fn is_long(count: u32, block: &[Statement]) -> bool {
    u64::from(count).saturating_mul(runs_of(block)) >= MOST_IDS as u64
}

// Runs a statement, with its block, where no line makes a call and no `repeat` is too short for it, and tells whether that is so.
#[cycle(quiet)]
fn run_quietly(way: &Way, statement: &Statement, quiet: &mut Quiet) -> Result<bool, NoMemory>
    requires app { CanRun way.now.app.now }
    requires known { KnowsNone way.now quiet.old }
    ensures goes { IfOk result (λ all. IsTrue all
        → IsQuiet (step_of statement.now) way.now quiet.old quiet.new) }
    ensures known { KnowsNone way.now quiet.new }
{
    match statement {
        Statement::Repeat { count, body } => {
            let block = body.as_slice();
            if *count == 0 {
                return Ok(true);
            }
            if !is_long(*count, block) || !run_block(way, block, quiet)? {
                return Ok(false);
            }
            let once = quiet.copy(way.given.alloc)?;
            if !run_block(way, block, quiet)? {
                return Ok(false);
            }
            // what the second turn leaves as it was, so does each further one
            Ok(once.is_as(quiet))
        }
        Statement::IfAbsent { variable, body } => {
            if !way.is_absent(variable) {
                return Ok(true);
            }
            run_block(way, body.as_slice(), quiet)
        }
        _ => way.run_line(statement, quiet),
    }
}

// The same of the statements of a block.
#[cycle(quiet)]
fn run_block(way: &Way, block: &[Statement], quiet: &mut Quiet) -> Result<bool, NoMemory>
    requires app { CanRun way.now.app.now }
    requires known { KnowsNone way.now quiet.old }
    ensures goes { IfOk result (λ all. IsTrue all
        → IsQuietBlock (block_from (steps_of block.now)) way.now quiet.old quiet.new) }
    ensures known { KnowsNone way.now quiet.new }
{
    for statement in block {
        if !run_quietly(way, statement, quiet)? {
            return Ok(false);
        }
    }
    Ok(true)
}

impl<'a> Way<'a> {
    // What it knows before quiet lines.
    fn quiet(&self, none_here: bool) -> Result<Quiet, NoMemory>
        ensures { IfOk result (λ quiet. quiet ≡ quiet_in self.now none_here) }
    {
        let carried = self.changes.carried.copy(self.given.alloc)?;
        let reply = self.changes.reply.copy(self.given.alloc)?;
        Ok(Quiet {
            carried,
            reply,
            none_here,
        })
    }

    /// What a `repeat` leaves of which no line makes a call. `None` for another statement, for one that may make a call, and for a short
    /// one, whose turns cost less than to compare what they leave.
    pub fn repeat_quietly(
        &self,
        statement: &Statement,
        none_here: bool,
    ) -> Result<Option<Quiet>, NoMemory>
        requires app { CanRun self.now.app.now }
        requires known { none_here ≡ true → NoneHere self.now }
        ensures goes { IfOk result (λ left. IfSome left (λ quiet.
            IsQuiet (step_of statement.now) self.now (quiet_in self.now none_here) quiet)) }
        ensures known { IfOk result (λ left. IfSome left (λ quiet. KnowsNone self.now quiet)) }
    {
        let Statement::Repeat { count, body } = statement else {
            return Ok(None);
        };
        if !is_long(*count, body.as_slice()) {
            return Ok(None);
        }
        let mut quiet = self.quiet(none_here)?;
        if run_quietly(self, statement, &mut quiet)? {
            return Ok(Some(quiet));
        }
        Ok(None)
    }

    /// Takes over what quiet lines left, and tells whether none of the ids that are carried is of a store here, as far as that is known.
    pub fn take(&mut self, quiet: Quiet) -> bool
        ensures local { local_in self.new ≡ local_with self.old quiet }
        ensures same { self.new ≡ record self.old { changes = self.new.changes } }
        ensures span { self.new.changes.span ≡ self.old.changes.span }
        ensures none { result ≡ quiet.none_here }
    {
        let Quiet {
            carried,
            reply,
            none_here,
        } = quiet;
        self.changes.carried = carried;
        self.changes.reply = reply;
        none_here
    }
}
