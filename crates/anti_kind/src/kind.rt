use crate::machine::Machine;

/// A machine that keeps the table of a store whose kind has laws: what a region shows never falls and is what was written, a look
/// names just what is missing, a read shows what its region shows, together with what the rows that it shows depend on there, and
/// each row that is handed out is that of a write.
pub trait Kind: Machine {
    ghost use Rattle.std.specs.Prelude.{◌≡◌};
    ghost use Rattle.anti_kind.specs.Store.{Store};
    ghost use Rattle.anti_kind.specs.Objects.{store};
    ghost use Rattle.anti_kind.specs.Laws.{KeepsLaws};

    ghost keeps: { (m : Self) (s : Store) → Self.start m ≡ store s → KeepsLaws s };
}
