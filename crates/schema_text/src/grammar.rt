//! The laws of lines and descriptions: reading and grammar are one.

ghost use Rattle.schema_text.specs.Grammar.{DescriptionsAreOfOctets};
ghost use Rattle.schema_text.specs.Lines.{LinesAreOfText};
ghost use Rattle.schema_text.specs.Spelling.{TokensAreSpelled};

/// The description that is read of octets is the one that they are by the grammar, and what gives none is none by the
/// grammar.
pub fn descriptions_are_of_octets()
    ensures { DescriptionsAreOfOctets }
{}

/// The tokens that are read of octets are those that they spell by the grammar of quoted texts and lists.
pub fn tokens_are_spelled()
    ensures { TokensAreSpelled }
{}

/// The lines that are found in a text are those of the grammar of lines, and no others.
pub fn lines_are_of_text()
    ensures { LinesAreOfText }
{}
