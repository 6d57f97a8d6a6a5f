ghost use Rattle.anti_command.specs.Placed.{TellsCounterexample, TellsPlacement, TellsReview};

use anti_adversary::search;
use anti_app::App;
use anti_doctor::diagnoses_decide;
use anti_ids::{Bytes, NoMemory};
use anti_place::{placed, review, review_begins_with_the_placement, superfluous_barriers_can_go};
use anti_text::{placement_line, review_text, verdict_text};
use law_placed::placed_applications_keep_all;
use std::alloc::Global;

/// What is told of an application without playing it. It says which bytes tell it, and tells it of the application that it is given.
pub trait Telling {
    ghost use Rattle.std.specs.Prelude.{ℕ, List, IfOk};
    ghost use Rattle.anti_app.specs.declared.app.App.{App};
    ghost use Rattle.anti_command.specs.inner.Stated.{IsPlayable};

    ghost tells: { App → List ℕ → Type 0 };

    /// The text. The only error is want of memory.
    fn tell(alloc: Global, app: App) -> Result<Bytes, NoMemory>
        requires { IsPlayable app }
        ensures { IfOk result (λ t. tells app t.items) };
}

/// Whether barriers, transfers and roots stand where they must, or the first line at which they do not.
pub struct PlacementLine;

impl Telling for PlacementLine {
    ghost tells = { TellsPlacement };

    #[tactic(auto, unfolding(crate::specs::inner::Stated::IsPlayable))]
    fn tell(alloc: Global, app: App) -> Result<Bytes, NoMemory> {
        placed_applications_keep_all();
        diagnoses_decide();
        placement_line(alloc, &app, placed(&app))
    }
}

/// All lines at which one of them is missing, and all barriers that never have to wait.
pub struct ReviewLines;

impl Telling for ReviewLines {
    ghost tells = { TellsReview };

    #[tactic(auto, unfolding(crate::specs::inner::Stated::IsPlayable))]
    fn tell(alloc: Global, app: App) -> Result<Bytes, NoMemory> {
        review_begins_with_the_placement();
        superfluous_barriers_can_go();
        let remarks = review(alloc, &app)?;
        review_text(alloc, &app, remarks.as_slice())
    }
}

/// The choices of a run in which a read misses a write, where one is found.
pub struct CounterexampleText;

impl Telling for CounterexampleText {
    ghost tells = { TellsCounterexample };

    #[tactic(auto, unfolding(crate::specs::inner::Stated::IsPlayable))]
    fn tell(alloc: Global, app: App) -> Result<Bytes, NoMemory> {
        placed_applications_keep_all();
        diagnoses_decide();
        let (app, verdict) = search(alloc, app)?;
        verdict_text(alloc, &app, &verdict)
    }
}
