// Laws of reviews. The functions do nothing: what they say is in their contracts.
ghost use Rattle.std.specs.Prelude.{◌≡◌, ◌↔◌, ℕ, false, Some, Contains, slice_get};
ghost use Rattle.std.specs.List.{list_any};
ghost use Rattle.anti_app.specs.declared.app.App.{App};
ghost use Rattle.anti_place.specs.Placements.{placement};
ghost use Rattle.anti_place.specs.Reviews.{fails_there, is_failing, review, superfluous_there};
ghost use Rattle.anti_place.specs.Without.{moved, without};
ghost use Rattle.anti_place.specs.declared.placement.Placement.TheVariants.{No, Yes};
ghost use Rattle.anti_place.specs.declared.reason.Reason.{Reason};

/// An application is placed where no line of its review fails; and where one fails the placement tells that with which the review begins.
pub fn review_begins_with_the_placement()
    ensures placed { (app : App) → (placement app ≡ Yes) ↔ (list_any is_failing (review app) ≡ false) }
    ensures first { (app : App) (service handler line : ℕ) (reason : Reason)
        → placement app ≡ No service handler line reason
        → slice_get (review app) 0 ≡ Some (fails_there service handler (record { line = line; reason = reason })) }
{}

/// Where a barrier never has to wait, and its line does not fail, the application without it is placed as before, but for the numbers of the
/// lines behind it.
pub fn superfluous_barriers_can_go()
    ensures { (app : App) (service handler line : ℕ)
        → Contains (review app) (superfluous_there service handler line)
        → ((reason : Reason) → Contains (review app) (fails_there service handler (record { line = line; reason = reason })) → ⊥)
        → placement (without service handler line app) ≡ moved service handler line (placement app) }
{}
