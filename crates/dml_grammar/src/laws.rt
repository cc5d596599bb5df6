//! What the definition of `parse` means.

ghost use Rattle.dml_grammar.specs.FirstFault.{NamesFirstFault, ReadsFaultless};

/// Of every text: it is a script exactly where it has a line and no line of it is faulty, and its lines are then
/// those of its lines of text; else its fault is that of the first faulty line, or the missing `image` line.
pub fn law_of_first_fault()
    ensures lines { ReadsFaultless }
    ensures fault { NamesFirstFault }
{}
