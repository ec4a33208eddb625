// Laws of chains of SUPs, of types and of classes.

ghost use Rattle.schema_laws.specs.Chains.{
  EffectsAreInherited,
  LoopsOfClassesLeadBack,
  LoopsOfTypesLeadBack,
  MissingAreAbove,
  MissingComeInTurn,
  MissingStandOnce,
  ReadTextsHaveNoLoop,
  RefusedAtFirstLoop,
  TypesHaveWhatIsInEffect,
};

/// A type, or a class, is one with a loop exactly where a chain of SUPs leads from it back to it. A text that is
/// refused with E14 is refused at the first line with such a type or class, and a text that is read has none.
pub fn loops_lead_back()
    ensures types { LoopsOfTypesLeadBack }
    ensures classes { LoopsOfClassesLeadBack }
    ensures refused { RefusedAtFirstLoop }
    ensures read { ReadTextsHaveNoLoop }
{}

/// In a text that is read as a schema, the rules and the syntax in effect for a type are its own, and what it lacks is
/// inherited from the type that its SUP names; and the schema has each type with these.
pub fn effects_are_inherited()
    ensures effects { EffectsAreInherited }
    ensures types { TypesHaveWhatIsInEffect }
{}

/// In a schema that is read from a text, the superclasses that are missing beside some classes are those above one of
/// these that are none of these, each once, and in turn: the direct superclasses of an earlier one before those of a
/// later one.
pub fn missing_are_above()
    ensures above { MissingAreAbove }
    ensures once { MissingStandOnce }
    ensures in_turn { MissingComeInTurn }
{}
