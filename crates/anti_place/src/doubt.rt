ghost use Rattle.std.specs.Prelude.{◌≡◌};
ghost use Rattle.anti_lang.specs.Bodies.{step_of};
ghost use Rattle.anti_place.specs.inner.Joined.{does, fails, forbidden, goes_on, has_to_wait, if_same, settles, transfers, wants_settled, wants_transferred};

use crate::flow::Flow;
use crate::reason::Reason;
use crate::search::Sought;
use anti_ids::Name;
use anti_lang::Statement;

/// What may be amiss at a line. Each doubt is followed through a body alone.
#[derive(Clone, Copy)]
pub enum Doubt {
    /// That the line may stand nowhere: it is held at the start, and nothing clears it.
    Always,
    /// That something is carried that no barrier waited for.
    Unsettled,
    /// That the rows of this variable are not transferred.
    Rows(Name),
}

// What is done to the doubt on the rows of x by a statement that does this to the doubt on those of y.
fn if_same(x: &Name, y: &Name, flow: Flow) -> Flow
    ensures { result ≡ if_same x.now y.now flow }
{
    if *x == *y { flow } else { Flow::Keeps }
}

// What a statement does to a doubt that is always held.
fn goes_on(statement: &Statement) -> Flow
    ensures { result ≡ goes_on (step_of statement.now) }
{
    match statement {
        Statement::Nack => Flow::Stops,
        _ => Flow::Keeps,
    }
}

// What a statement does to the doubt whether what is carried is settled.
fn settles(statement: &Statement) -> Flow
    ensures { result ≡ settles (step_of statement.now) }
{
    match statement {
        Statement::Write { untracked, .. } => { if *untracked { Flow::Keeps } else { Flow::Sets } }
        Statement::Append(_) => Flow::Sets,
        Statement::Transfer(_) => Flow::Sets,
        Statement::Call { .. } => Flow::Sets,
        Statement::Barrier => Flow::Clears,
        Statement::Root => Flow::Clears,
        Statement::Stop => Flow::Clears,
        Statement::Nack => Flow::Stops,
        _ => Flow::Keeps,
    }
}

// What a statement does to the doubt whether the rows of x are transferred.
fn transfers(x: &Name, statement: &Statement) -> Flow
    ensures { result ≡ transfers x.now (step_of statement.now) }
{
    match statement {
        Statement::Transfer(variable) => if_same(x, variable, Flow::Clears),
        Statement::Read { variable, .. } => if_same(x, variable, Flow::Sets),
        Statement::Scan { variable, .. } => if_same(x, variable, Flow::Sets),
        Statement::Poll { variable, .. } => if_same(x, variable, Flow::Sets),
        Statement::Root => Flow::Clears,
        Statement::Stop => Flow::Clears,
        Statement::Nack => Flow::Stops,
        _ => Flow::Keeps,
    }
}

// Why a statement may stand nowhere.
fn forbidden(statement: &Statement) -> Option<Reason>
    ensures { result ≡ forbidden (step_of statement.now) }
{
    match statement {
        Statement::Remove(_) => Some(Reason::Removed),
        Statement::Write { untracked, .. } => {
            if *untracked {
                Some(Reason::Untracked)
            } else {
                None
            }
        }
        _ => None,
    }
}

// Why a statement fails where what is carried is not settled.
fn wants_settled(statement: &Statement) -> Option<Reason>
    ensures { result ≡ wants_settled (step_of statement.now) }
{
    match statement {
        Statement::Read { .. } => Some(Reason::Unsettled),
        Statement::Scan { .. } => Some(Reason::Unsettled),
        Statement::Poll { .. } => Some(Reason::Unsettled),
        _ => None,
    }
}

// Why a statement fails where some rows are not transferred, in a handler that is called or not.
fn wants_transferred(called: bool, statement: &Statement) -> Option<Reason>
    ensures { result ≡ wants_transferred called (step_of statement.now) }
{
    match statement {
        Statement::Write { untracked, .. } => {
            if *untracked {
                None
            } else {
                Some(Reason::Untransferred)
            }
        }
        Statement::Call { .. } => Some(Reason::Untransferred),
        Statement::Send { .. } => Some(Reason::Untransferred),
        Statement::Barrier => Some(Reason::Untransferred),
        Statement::DryRun => Some(Reason::Untransferred),
        Statement::Read { .. } => Some(Reason::Untransferred),
        Statement::Scan { .. } => Some(Reason::Untransferred),
        Statement::Poll { .. } => Some(Reason::Untransferred),
        Statement::Nack => {
            if called {
                Some(Reason::Untransferred)
            } else {
                None
            }
        }
        _ => None,
    }
}

// Why a statement is told where barriers are sought that have to wait, and what is carried is not settled.
fn has_to_wait(statement: &Statement) -> Option<Reason>
    ensures { result ≡ has_to_wait (step_of statement.now) }
{
    match statement {
        Statement::Barrier => Some(Reason::Unsettled),
        _ => None,
    }
}

impl Doubt {
    /// What a statement without a block does to it.
    pub fn after(&self, statement: &Statement) -> Flow
        ensures { result ≡ does self.now (step_of statement.now) }
    {
        match self {
            Doubt::Always => goes_on(statement),
            Doubt::Unsettled => settles(statement),
            Doubt::Rows(x) => transfers(x, statement),
        }
    }

    // Why a statement without a block fails where it is held, in a handler that is called or not.
    fn fault(&self, called: bool, statement: &Statement) -> Option<Reason>
        ensures { result ≡ fails (Sought.Faults called) self.now (step_of statement.now) }
    {
        match self {
            Doubt::Always => forbidden(statement),
            Doubt::Unsettled => wants_settled(statement),
            Doubt::Rows(_) => wants_transferred(called, statement),
        }
    }

    /// Why a statement without a block is told where the doubt is held.
    pub fn fails(&self, sought: Sought, statement: &Statement) -> Option<Reason>
        ensures { result ≡ fails sought self.now (step_of statement.now) }
    {
        match sought {
            Sought::Faults { called } => self.fault(called, statement),
            Sought::Waits => has_to_wait(statement),
        }
    }
}
