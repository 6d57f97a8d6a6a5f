ghost use Rattle.std.specs.Prelude.{◌≡◌, ◌≤◌, [], IfOk, OnOk, false, length, reverse};
ghost use Rattle.anti_lang.specs.Stated.{StatedLines, stated, all_stated};
ghost use Rattle.anti_lang.specs.Faults.{block_fault, blocks_below, has_end, runs, begins_with_root, in_block, cannot_open, has_wrong_block};

use crate::line::Line;
use crate::statement::Statement;
use anti_ids::{List, MOST_LINES, MOST_NESTED, MOST_RUNS, NoMemory};
use std::alloc::Global;

// How often the lines of each open block run, the outermost block first.
type Turns = List<u32>;

// Whether the lines have the `end` of a block that is open in front of them.
fn has_end(lines: &[Line]) -> bool
    ensures { result ≡ has_end (all_stated lines.now) [] }
{
    let mut inner: usize = 0;
    for line in lines {
        match line {
            Line::Repeat(_) => inner += 1,
            Line::IfAbsent(_) => inner += 1,
            Line::End => {
                if inner == 0 {
                    return true;
                }
                inner -= 1;
            }
            Line::Does(_) => {}
        }
    }
    false
}

// Whether there is no line, or the first is `root`.
fn begins_with_root(lines: &[Line]) -> bool
    ensures { result ≡ begins_with_root (all_stated lines.now) }
{
    match lines {
        [] => true,
        [Line::Does(Statement::Root), ..] => true,
        _ => false,
    }
}

// How often a line runs in the open blocks.
fn runs(blocks: &Turns) -> u32
    ensures { result ≡ runs (reverse blocks.now.items) }
{
    match blocks.as_slice() {
        [] => 1,
        [.., last] => *last,
    }
}

// Whether a line stands in a block.
fn in_block(blocks: &Turns) -> bool
    ensures { result ≡ in_block (reverse blocks.now.items) }
{
    blocks.len() > 0
}

// Whether a block may not be opened in the open blocks, above the lines behind.
fn cannot_open(blocks: &Turns, behind: &[Line]) -> bool
    ensures { result ≡ cannot_open (reverse blocks.now.items) (all_stated behind.now) }
{
    !has_end(behind) || blocks.len() >= MOST_NESTED
}

// Whether a line is wrong in the open blocks, above the lines behind it.
fn is_wrong(blocks: &Turns, line: &Line, behind: &[Line]) -> bool
    ensures { result ≡ has_wrong_block (reverse blocks.now.items) (stated line.now) (all_stated behind.now) }
{
    match line {
        Line::Repeat(count) => cannot_open(blocks, behind)
            || runs(blocks).saturating_mul(*count) > MOST_RUNS,
        Line::IfAbsent(_) => cannot_open(blocks, behind),
        Line::End => !in_block(blocks),
        Line::Does(Statement::Root) => in_block(blocks),
        Line::Does(Statement::Stop) => in_block(blocks) || !begins_with_root(behind),
        Line::Does(_) => false,
    }
}

// Opens or closes the block that a line opens or closes.
fn pass(blocks: &mut Turns, line: &Line) -> Result<(), NoMemory>
    ensures { (behind : StatedLines) → has_wrong_block (reverse blocks.old.items) (stated line.now) behind ≡ false
        → OnOk result (reverse blocks.new.items ≡ blocks_below (reverse blocks.old.items) (stated line.now)) }
{
    match line {
        Line::Repeat(count) => {
            let more = runs(blocks).saturating_mul(*count);
            blocks.add(more)
        }
        Line::IfAbsent(_) => {
            let same = runs(blocks);
            blocks.add(same)
        }
        Line::End => {
            let _closed = blocks.pop();
            Ok(())
        }
        Line::Does(_) => Ok(()),
    }
}

/// The first line, counted from 1, at which a block is wrong.
#[tactic(auto, unfolding(crate::specs::Faults::block_fault))]
pub(crate) fn block_fault(alloc: Global, lines: &[Line]) -> Result<Option<u32>, NoMemory>
    requires { length lines.now ≤ MOST_LINES }
    ensures { IfOk result (λ number. number ≡ block_fault (all_stated lines.now)) }
{
    let mut blocks = List::new(alloc);
    for (i, line) in lines.iter().enumerate() {
        if is_wrong(&blocks, line, &lines[i + 1..]) {
            return Ok(Some(i as u32 + 1));
        }
        pass(&mut blocks, line)?;
    }
    Ok(None)
}
