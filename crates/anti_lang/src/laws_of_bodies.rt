// Laws of bodies. The function does nothing: what it says is in its contract.
ghost use Rattle.std.specs.Prelude.{◌≡◌, ◌≤◌, ℕ, List, Ok, length};
ghost use Rattle.anti_lang.specs.Program.{Block};
ghost use Rattle.anti_lang.specs.Bodies.{block_of, body_of};
ghost use Rattle.anti_lang.specs.Blocks.{lines_of};
ghost use Rattle.anti_lang.specs.Spans.{spans_of};
ghost use Rattle.anti_lang.specs.Parsing.{lines_from, parsed};
ghost use Rattle.anti_lang.specs.Printing.{printed};

/// The lines that state a body are those of the body; it begins no more spans than it has lines; its printed lines state it too; and
/// the body of the code that stands for it stands for nothing else.
pub fn bodies_are_printed()
    ensures lines { (texts : List (List ℕ)) (block : Block) → parsed texts ≡ Ok block → lines_from 0 texts ≡ Ok (lines_of block) }
    ensures spans { (texts : List (List ℕ)) (block : Block) → parsed texts ≡ Ok block → spans_of block ≤ length texts }
    ensures again { (texts : List (List ℕ)) (block : Block) → parsed texts ≡ Ok block → parsed (printed block) ≡ Ok block }
    ensures code { (block : Block) → block_of (body_of block) ≡ block }
{}
