// Laws of the rules of types.

ghost use Rattle.schema_reader.specs.BuiltIn.{built_in};
ghost use Rattle.schema_laws.specs.Ruled.{HaveRulesOfOneFamily, ReadTypesAreOfOneFamily};

/// Each built-in type has the ORDERING and the SUBSTR rule that its description gives: the rules of a type are of one
/// family.
pub fn built_in_rules_are_of_one_family()
    ensures { HaveRulesOfOneFamily built_in.types }
{}

/// In each schema that is read from a text, each type has an EQUALITY rule, and the ORDERING and the SUBSTR rule that
/// are in effect for it, own or inherited, are of that rule's family and syntax.
pub fn read_types_are_of_one_family()
    ensures { ReadTypesAreOfOneFamily }
{}
