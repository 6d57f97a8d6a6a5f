ghost use Rattle.std.specs.Prelude.{◌≡◌, ◌/◌, ◌%◌, ◌++◌, true, map, IfOk, IsTrue, OnOk};
ghost use Rattle.std.specs.List.{flat_map};
ghost use Rattle.anti_order.specs.inner.Pieces.{IsWithin, marks_in};
ghost use Rattle.anti_text.specs.Spans.{spaced_mark};

use crate::output::Output;
use crate::pieces::{PieceRun, Pieces};
use crate::words::spaced_mark;
use anti_app::App;
use anti_ids::NoMemory;
use anti_order::{MarkPieces, Marks, Piece};
use anti_trace::Mark;
use std::alloc::Global;

/// Writes lists of marks, each mark behind a space, by the texts of the marks of all writes of a record, each made once.
#[derive(Drop)]
pub struct MarkTexts<'a> {
    /// The application.
    pub app: &'a App,
    writes: Vec<Mark>,
    texts: Pieces,
    ghost kept: { texts ≡ map (spaced_mark app.now) writes.items },
}

fn texts_of(alloc: Global, app: &App, marks: &[Mark]) -> Result<Pieces, NoMemory>
    ensures { IfOk result (λ texts. texts ≡ map (spaced_mark app.now) marks.now) }
{
    let mut texts = Pieces::with_room(alloc, marks.len())?;
    for mark in marks {
        texts = texts.with_mark(app, *mark)?;
    }
    Ok(texts)
}

// A mark as one number.
fn number_of(mark: Mark) -> u64
    ensures object { result % 4294967296 ≡ mark.object }
    ensures place { result / 4294967296 ≡ mark.place }
{
    u64::from(mark.place) * 0x1_0000_0000 + u64::from(mark.object)
}

// Whether two marks are the same, by one comparison.
fn is_same(one: Mark, other: Mark) -> bool
    ensures { IsTrue result → one ≡ other }
{
    number_of(one) == number_of(other)
}

// Whether marks are the same. All of them are compared, many at once: the loop has no exit but its end.
fn are_same(one: &[Mark], other: &[Mark]) -> bool
    ensures { IsTrue result → one.now ≡ other.now }
{
    if one.len() != other.len() {
        return false;
    }
    let mut same = true;
    let mut at = 0;
    for mark in one {
        same &= is_same(*mark, other[at]);
        at += 1;
    }
    same
}

// Writes marks one by one.
fn one_by_one(out: &mut Output, app: &App, marks: &[Mark]) -> Result<(), NoMemory>
    ensures { OnOk result (out.new ≡ out.old ++ flat_map (spaced_mark app.now) marks.now) }
{
    for mark in marks {
        spaced_mark(out, app, *mark)?;
    }
    Ok(())
}

impl<'a> MarkTexts<'a> {
    /// The texts of the marks of writes.
    pub fn of(alloc: Global, app: &'a App, marks: &[Mark]) -> Result<MarkTexts<'a>, NoMemory>
        ensures { IfOk result (λ texts. texts.app.now ≡ app.now) }
    {
        let mut writes = Vec::new(alloc);
        writes.extend_from_slice(marks)?;
        let texts = texts_of(alloc, app, marks)?;
        Ok(MarkTexts { app, writes, texts })
    }

    // Writes the marks of a piece over writes, those of a run at once where their texts are kept.
    fn piece(
        &self,
        out: &mut Output,
        writes: &[Mark],
        are_kept: bool,
        piece: Piece,
    ) -> Result<(), NoMemory>
        requires within { IsWithin writes.now piece }
        requires kept { are_kept ≡ true → writes.now ≡ self.now.writes.items }
        ensures { OnOk result
            (out.new ≡ out.old ++ flat_map (spaced_mark self.now.app.now) (marks_in writes.now piece)) }
    {
        match piece {
            Piece::Alone(mark) => spaced_mark(out, self.app, mark),
            Piece::Writes { from, to } => {
                if are_kept {
                    return self.texts.write(out, PieceRun { from, to });
                }
                one_by_one(out, self.app, &writes[from..to])
            }
        }
    }

    /// Writes marks, each behind a space. Their pieces are compared with what is kept once for all of them.
    pub fn marks(&self, out: &mut Output, marks: &Marks) -> Result<(), NoMemory>
        ensures { OnOk result
            (out.new ≡ out.old ++ flat_map (spaced_mark self.now.app.now) marks.now.items) }
    {
        let MarkPieces { writes, pieces } = marks.pieces();
        let are_kept = are_same(writes, self.writes.as_slice());
        for piece in pieces {
            self.piece(out, writes, are_kept, *piece)?;
        }
        Ok(())
    }
}
