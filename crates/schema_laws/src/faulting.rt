// Laws of texts that are refused as schemas.

ghost use Rattle.schema_laws.specs.FirstFaults.{RefusedAtFirstBadLine, RefusedAtFirstLack, RefusedAtFirstUnknown};

/// A text that is refused as E12 is refused at its first line that is bad by itself or beside others; one that is
/// refused as E13, at the first line that names what is not there; one that is refused as E15, at the first line of a
/// type without an EQUALITY rule, own or inherited.
pub fn refused_at_first_faults()
    ensures bad { RefusedAtFirstBadLine }
    ensures unknown { RefusedAtFirstUnknown }
    ensures lacking { RefusedAtFirstLack }
{}
