// What looks are worth to whoever reads behind them, proved once for all ports. The function does nothing: what it says is in its contract.
ghost use Rattle.std.specs.Prelude.{◌≡◌, ℕ, ◌≤◌, All, List, Ok, Some};
ghost use Rattle.anti_kind.specs.declared.row.Row.{Row};
ghost use Rattle.anti_kind.specs.Laws.{KeepsLaws};
ghost use Rattle.anti_kind.specs.Objects.{store};
ghost use Rattle.anti_kind.specs.Store.{Store};
ghost use Rattle.anti_shim.specs.declared.caller.Caller.{Caller};
ghost use Rattle.anti_shim.specs.declared.looks.PlannedLook.{PlannedLook};
ghost use Rattle.anti_shim.specs.declared.sight.Sight.{Sight};
ghost use Rattle.anti_shim.specs.Shims.{Reads};
ghost use Rattle.anti_shim.specs.Sights.{IsSeen};
ghost use Rattle.anti_shim.specs.Steps.{Step};

use anti_kind::what_was_found_stays;

/// A read behind a sight, whatever came between, shows of its key at least each version that was looked for.
pub fn reads_show_what_was_seen()
    ensures { (step : Step) (who : Caller) (region : ℕ) (look : PlannedLook) (sight : Sight) (s : Store) (key : List ℕ) (row : Row)
        → step.starts look.store ≡ Some (store s) → KeepsLaws s → IsSeen step.old who region look sight
        → Reads step look.store region key (Ok row) → All (λ id. id.key ≡ key → id.version ≤ row.version) look.ids }
{
    what_was_found_stays();
}
