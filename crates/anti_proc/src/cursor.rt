ghost use Rattle.std.specs.Prelude.{◌≡◌, OnOk, option_map, slice_get};
ghost use Rattle.anti_lang.specs.Steps.{list_of, steps_of};
ghost use Rattle.anti_lang.specs.Bodies.{step_of};
ghost use Rattle.anti_proc.specs.inner.Cursors.{Enters, IsLine, IsStart, Turns, block_in, innermost, opened};

use anti_ids::{Copies, List, NoMemory};
use anti_lang::Statement;
use std::alloc::Global;

// The statement of a block at an index, where it is within.
fn statement_at(block: &[Statement], index: usize) -> Option<&Statement>
    ensures { option_map (λ statement. statement.now) result ≡ slice_get block.now index }
{
    block.get(index)
}

/// How far a block is run.
#[derive(Clone, Copy)]
pub struct Frame {
    /// How many of its statements are passed.
    pub passed: usize,
    /// How many turns come behind this one.
    pub turns: u32,
}

/// How far a body is run.
#[derive(Drop)]
pub struct Cursor {
    // the blocks round the innermost one, the outermost first; each stands behind the statement that opens the next
    outer: List<Frame>,
    // the innermost block
    here: Frame,
}

// The statements of the block that a statement opens, where it opens one.
#[tactic(auto, using(crate::proofs::Cursors::in_repeat, crate::proofs::Cursors::in_if))]
fn inner(statement: &Statement) -> &[Statement]
    ensures { steps_of result.now ≡ list_of (block_in (step_of statement.now)) }
{
    match statement {
        Statement::Repeat { body, .. } => body.as_slice(),
        Statement::IfAbsent { body, .. } => body.as_slice(),
        _ => &[],
    }
}

// The block that the last of so many statements of a block opens.
fn opened(block: &[Statement], passed: usize) -> &[Statement]
    ensures { steps_of result.now ≡ opened (steps_of block.now) passed }
{
    match statement_at(block, passed.saturating_sub(1)) {
        Some(statement) => inner(statement),
        None => &[],
    }
}

// The innermost block, by the blocks round it.
fn innermost<'a>(body: &'a [Statement], outer: &[Frame]) -> &'a [Statement]
    ensures { steps_of result.now ≡ innermost (steps_of body.now) outer.now }
{
    let mut block = body;
    for frame in outer {
        block = opened(block, frame.passed);
    }
    block
}

impl Cursor {
    /// The start of a body. It takes no memory.
    pub fn start(alloc: Global) -> Cursor
        ensures { IsStart result }
    {
        Cursor {
            outer: List::new(alloc),
            here: Frame {
                passed: 0,
                turns: 0,
            },
        }
    }

    // Goes on behind the last statement of the innermost block: to its next turn, or to the block round it. `false` where it is the body,
    // of which nothing is left.
    #[tactic(auto, using(crate::proofs::Cursors::innermost_last, crate::proofs::Cursors::left_round_last, crate::proofs::Cursors::turns_round_last))]
    fn turn(&mut self) -> bool
        ensures { Turns self.old self.new result }
    {
        if self.here.turns > 0 {
            self.here.passed = 0;
            self.here.turns -= 1;
            return true;
        }
        match self.outer.pop() {
            Some(frame) => {
                self.here = frame;
                true
            }
            None => false,
        }
    }

    /// The next statement, which is then behind the cursor. `None` where none is left.
    #[tactic(auto, using(crate::proofs::Cursors::line_none))]
    pub fn next_line<'a>(&mut self, body: &'a [Statement]) -> Option<&'a Statement>
        ensures { IsLine (steps_of body.now) self.old self.new result }
    {
        loop {
            let block = innermost(body, self.outer.as_slice());
            if let Some(statement) = statement_at(block, self.here.passed) {
                self.here.passed += 1;
                return Some(statement);
            }
            if !self.turn() {
                return None;
            }
        }
    }

    /// Enters the block that the last statement opens, for so many turns.
    #[tactic(auto, using(crate::proofs::Cursors::innermost_last, crate::proofs::Cursors::left_round_last))]
    pub fn enter(&mut self, turns: u32) -> Result<(), NoMemory>
        ensures { OnOk result (Enters turns self.old self.new) }
    {
        if turns > 0 {
            self.outer.reserve(1)?;
            self.outer.put(self.here);
            self.here = Frame {
                passed: 0,
                turns: turns - 1,
            };
        }
        Ok(())
    }
}

impl Copies for Frame {
    fn copy(&self, _alloc: Global) -> Result<Frame, NoMemory> {
        Ok(*self)
    }
}

impl Copies for Cursor {
    fn copy(&self, alloc: Global) -> Result<Cursor, NoMemory> {
        let outer = self.outer.copy(alloc)?;
        Ok(Cursor {
            outer,
            here: self.here,
        })
    }
}
