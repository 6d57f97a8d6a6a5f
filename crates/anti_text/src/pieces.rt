ghost use Rattle.std.specs.Prelude.{◌≡◌, ◌≤◌, ◌<◌, ◌+◌, [], ◌∷◌, ◌++◌, get_or, length, IfOk, OnOk};
ghost use Rattle.std.specs.List.{slice_range};
ghost use Rattle.anti_text.specs.Spans.{spaced_mark};
ghost use Rattle.anti_text.specs.inner.Cut.{edge};
ghost use Rattle.anti_text.specs.inner.Runs.{IsRun, kept_text, run_text};

use crate::output::Output;
use crate::words::spaced_mark;
use anti_app::App;
use anti_ids::{Name, NoMemory, WriteId};
use anti_trace::Mark;
use std::alloc::Global;
use std::marker::Model;

/// The numbers of texts that stand behind one another, from one up to another, which are copied at once.
#[derive(Clone, Copy)]
pub struct PieceRun {
    pub from: usize,
    pub to: usize,
}

// Most texts are shorter.
const PIECE_BYTES: usize = 16;

/// Texts, one behind another. Contracts see the list of them.
#[derive(Drop)]
pub struct Pieces {
    text: Output,
    // Where each of them ends.
    ends: Vec<usize>,
}

impl Model for Pieces {
    ghost use Rattle.std.specs.Prelude.{ℕ, List, length};
    ghost use Rattle.anti_text.specs.inner.Cut.{cut, Rise};

    ghost Value = { List (List ℕ) };

    ghost view = { λ p. cut p.text 0 p.ends.items };

    ghost invariant = { λ p. Rise 0 p.ends.items (length p.text) };
}

// Where the text of a number begins, by the places where they end.
fn edge(ends: &[usize], number: usize) -> usize
    requires { number ≤ length ends.now }
    ensures { result ≡ edge 0 ends.now number }
{
    if number == 0 {
        return 0;
    }
    ends[number - 1]
}

// A part of a text.
fn part(text: &[u8], from: usize, to: usize) -> &[u8]
    requires ascends { from ≤ to }
    requires within { to ≤ length text.now }
    ensures { result.now ≡ slice_range text.now from to }
{
    &text[from..to]
}

impl Pieces {
    /// No texts, and room for so many of them.
    pub fn with_room(alloc: Global, count: usize) -> Result<Pieces, NoMemory>
        ensures { IfOk result (λ pieces. pieces ≡ []) }
    {
        let text = Output::with_room(alloc, count.saturating_mul(PIECE_BYTES))?;
        let ends = Vec::with_capacity(alloc, count)?;
        Ok(Pieces { text, ends })
    }

    /// The texts with that of an id and a comma behind them.
    pub fn with_id(self, stores: &[Name], id: &WriteId) -> Result<Pieces, NoMemory>
        ensures { IfOk result (λ pieces. pieces ≡ self ++ kept_text stores.now id.now ∷ []) }
    {
        let Pieces { mut text, mut ends } = self;
        text.id(stores, id)?;
        text.put(b",")?;
        ends.push(text.len())?;
        Ok(Pieces { text, ends })
    }

    /// The texts with that of a mark and the space before it behind them.
    pub fn with_mark(self, app: &App, mark: Mark) -> Result<Pieces, NoMemory>
        ensures { IfOk result (λ pieces. pieces ≡ self ++ spaced_mark app.now mark ∷ []) }
    {
        let Pieces { mut text, mut ends } = self;
        spaced_mark(&mut text, app, mark)?;
        ends.push(text.len())?;
        Ok(Pieces { text, ends })
    }

    // The texts of a run.
    fn bytes(&self, run: PieceRun) -> &[u8]
        requires { IsRun self.now run }
        ensures { result.now ≡ run_text self.now run }
    {
        let ends = self.ends.as_slice();
        part(self.text.bytes(), edge(ends, run.from), edge(ends, run.to))
    }

    /// The number behind that of a text.
    pub fn behind(&self, number: usize) -> usize
        requires { number < length self.now }
        ensures { result ≡ number + 1 }
    {
        let _count = self.ends.len();
        number + 1
    }

    /// Writes a run of the texts.
    pub fn write(&self, out: &mut Output, run: PieceRun) -> Result<(), NoMemory>
        requires { IsRun self.now run }
        ensures { OnOk result (out.new ≡ out.old ++ run_text self.now run) }
    {
        if run.from == run.to {
            return Ok(());
        }
        out.put(self.bytes(run))
    }

    /// Goes on with the text of a number behind a run. Where it stands behind the run it is left to be written with it; otherwise the run is
    /// written, and a new one begins.
    pub fn go_on(
        &self,
        out: &mut Output,
        run: PieceRun,
        number: usize,
    ) -> Result<PieceRun, NoMemory>
        requires run { IsRun self.now run }
        requires number { number < length self.now }
        ensures text { IfOk result (λ next. out.new ++ run_text self.now next
            ≡ (out.old ++ run_text self.now run) ++ get_or self.now number []) }
        ensures run { IfOk result (λ next. IsRun self.now next) }
    {
        if number == run.to {
            return Ok(PieceRun {
                from: run.from,
                to: self.behind(number),
            });
        }
        self.write(out, run)?;
        Ok(PieceRun {
            from: number,
            to: self.behind(number),
        })
    }
}
