//! What is written is read again.
ghost use Rattle.std.specs.Prelude.{◌≡◌, ◌<◌, ◌^◌, ℕ, List, Some, All, map};
ghost use Rattle.if1_graph.specs.declared.line.Line.{Line};
ghost use Rattle.if1_graph.specs.TextLines.{lines_in};
ghost use Rattle.if1_graph.specs.Reading.{line_of};
ghost use Rattle.if1_graph.specs.Spelling.{line_text, text_of, opening, IsSpelled};

/// A line is read from its spelling.
pub fn written_is_read()
    ensures { (l : Line) → IsSpelled l → line_of (line_text l) ≡ Some l }
{}

/// The lines of a written text say the lines that were written, in order.
pub fn text_is_read()
    ensures lines { (ls : List Line) → All IsSpelled ls → lines_in (text_of ls) ≡ map line_text ls }
    ensures read { (ls : List Line) → All IsSpelled ls → map line_of (lines_in (text_of ls)) ≡ map Some ls }
{}

/// What is read has a spelling.
pub fn read_is_spelled()
    ensures { (s : List ℕ) (l : Line) → line_of s ≡ Some l → IsSpelled l }
{}

/// The line with which a compound node begins has a spelling.
pub fn opening_is_spelled()
    ensures { (label op : ℕ) → label < 2 ^ 32 → op < 2 ^ 32 → IsSpelled (opening label op) }
{}
