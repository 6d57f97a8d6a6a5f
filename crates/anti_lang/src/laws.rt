// Laws of the language. The functions do nothing: what they say is in their contracts.
ghost use Rattle.std.specs.Prelude.{◌≡◌, ℕ, List, Some};
ghost use Rattle.anti_lang.specs.Words.{words};
ghost use Rattle.anti_lang.specs.Lines.{Line, read_line};
ghost use Rattle.anti_lang.specs.Printing.{spelling, spaced};

/// Words that state a line are its spelling. So each line has one spelling, and a line that is printed as it is spelled, with one space
/// between the words, is found and read as it again.
pub fn lines_are_spelled()
    ensures found { (texts : List (List ℕ)) (line : Line) → read_line texts ≡ Some line → texts ≡ spelling line }
    ensures spaced { (line : Line) → read_line (spelling line) ≡ Some line → words (spaced (spelling line)) ≡ spelling line }
{}
