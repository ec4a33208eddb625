//! Laws about the definitions, as functions that do nothing but name them.
ghost use Rattle.peer_link.specs.Claims.{ClaimsAreRead};
ghost use Rattle.peer_link.specs.Past.{ForwardIsTaken, RefusalsHaveCause};

/// A start that comes after all that its replica said isn't refused; one that is refused doesn't remember something
/// that was said.
pub fn who_is_refused()
    ensures forward { ForwardIsTaken }
    ensures cause { RefusalsHaveCause }
{}

/// The octets of a claim are read as that claim.
pub fn claims_are_read()
    ensures { ClaimsAreRead }
{}
