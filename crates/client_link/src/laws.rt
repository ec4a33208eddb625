//! Laws of directories that serve one session after the other.
ghost use Rattle.client_link.specs.Served.{GoesAlong};

use ldap_session::Directory;

/// A directory that served sessions in turn went along one talk with them all: a law on the definitions, so its body is
/// empty.
pub fn served_along<D: Directory>()
    ensures { GoesAlong D.allows }
{}
