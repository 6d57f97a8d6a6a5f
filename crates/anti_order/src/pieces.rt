ghost use Rattle.std.specs.Prelude.{◌≡◌, ◌++◌, All, IfOk, OnErr, OnOk};
ghost use Rattle.anti_ids.specs.List.{empty, plain};
ghost use Rattle.anti_ids.specs.ListCalls.{pushed};
ghost use Rattle.anti_order.specs.inner.Pieces.{IsWithin, marks_in, marks_of};

use anti_ids::NoMemory;
use anti_kind::Handle;
use anti_trace::Mark;
use std::alloc::Global;
use std::marker::Model;

/// A part of a list of marks.
#[derive(Clone, Copy)]
pub enum Piece {
    /// One mark.
    Alone(Mark),
    /// The marks of the writes from one number up to another, counted from 0.
    Writes { from: usize, to: usize },
}

/// The pieces of a list of marks, over the marks of all writes.
#[derive(Clone, Copy)]
pub struct MarkPieces<'a> {
    pub writes: &'a [Mark],
    pub pieces: &'a [Piece],
}

/// A growing list of marks, which contracts see as a list without room. It stands in pieces over the marks of all writes of a trace, which
/// the orders of that trace share.
#[derive(Drop)]
pub struct Marks {
    writes: Option<Handle<Vec<Mark>>>,
    pieces: Vec<Piece>,
}

impl Model for Marks {
    ghost use Rattle.std.specs.Prelude.{All};
    ghost use Rattle.anti_ids.specs.List.{Listed, plain};
    ghost use Rattle.anti_trace.specs.declared.mark.Mark.{Mark};
    ghost use Rattle.anti_order.specs.inner.Pieces.{IsWithin, marks_of, shared};

    ghost Value = { Listed Mark };

    ghost view = { λ m. plain (marks_of (shared m.writes) m.pieces.items) };

    ghost invariant = { λ m. All (IsWithin (shared m.writes)) m.pieces.items };
}

// Adds the marks of a piece at the end of a list.
fn add_piece(list: &mut Vec<Mark>, writes: &[Mark], piece: Piece) -> Result<(), NoMemory>
    requires { IsWithin writes.now piece }
    ensures { OnOk result (list.new.items ≡ list.old.items ++ marks_in writes.now piece) }
{
    match piece {
        Piece::Alone(mark) => match list.push(mark) {
            Ok(()) => Ok(()),
            Err(_) => Err(NoMemory),
        },
        Piece::Writes { from, to } => match list.extend_from_slice(&writes[from..to]) {
            Ok(()) => Ok(()),
            Err(_) => Err(NoMemory),
        },
    }
}

impl Marks {
    /// No marks. They take no memory.
    pub fn new(alloc: Global) -> Marks
        ensures { result ≡ empty }
    {
        Marks {
            writes: None,
            pieces: Vec::new(alloc),
        }
    }

    // The marks of pieces over those of all writes.
    pub(crate) fn over(writes: Handle<Vec<Mark>>, pieces: Vec<Piece>) -> Marks
        requires { All (IsWithin writes.items) pieces.items }
        ensures { result ≡ plain (marks_of writes.items pieces.items) }
    {
        Marks {
            writes: Some(writes),
            pieces,
        }
    }

    /// Adds a mark at the end.
    pub fn add(&mut self, mark: Mark) -> Result<(), NoMemory>
        ensures ok { OnOk result (self.new ≡ pushed self.old mark) }
        ensures err { OnErr result (self.new ≡ self.old) }
    {
        match self.pieces.push(Piece::Alone(mark)) {
            Ok(()) => Ok(()),
            Err(_) => Err(NoMemory),
        }
    }

    /// The pieces of the list.
    pub fn pieces(&self) -> MarkPieces<'_>
        ensures marks { self.now.items ≡ marks_of result.writes.now result.pieces.now }
        ensures within { All (IsWithin result.writes.now) result.pieces.now }
    {
        match &self.writes {
            Some(writes) => MarkPieces {
                writes: writes.get().as_slice(),
                pieces: self.pieces.as_slice(),
            },
            None => MarkPieces {
                writes: &[],
                pieces: self.pieces.as_slice(),
            },
        }
    }

    /// The marks one after another, in a list of their own.
    pub fn to_list(&self, alloc: Global) -> Result<Vec<Mark>, NoMemory>
        ensures { IfOk result (λ list. list.items ≡ self.now.items) }
    {
        let MarkPieces { writes, pieces } = self.pieces();
        let mut list = Vec::new(alloc);
        for piece in pieces {
            add_piece(&mut list, writes, *piece)?;
        }
        Ok(list)
    }
}
