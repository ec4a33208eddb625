//! Laws of sessions.
ghost use Rattle.session_handler.specs.Rising.{ReadsRise};
ghost use Rattle.session_handler.specs.Turns.{SessionsJoin, RoleIsFirst};
ghost use Rattle.session_handler.specs.Waiting.{OthersDoNotUpdate};

/// A session over some messages, and on over others, is one over both, whatever is told with roles: a law on the
/// definitions, so its body is empty.
pub fn sessions_join<T>()
    ensures { SessionsJoin T }
{}

/// Whatever is asked for a message, the role is asked first, and what is told with it is learned next: a law on the
/// definitions, so its body is empty.
pub fn role_is_first<T>()
    ensures { RoleIsFirst T }
{}

/// A session keeps the greatest number that it has seen, and none of its reads is answered before it, whichever
/// directories answer them: a law on the definitions, so its body is empty.
pub fn reads_rise<T>()
    ensures { ReadsRise T }
{}

/// No message asks for an update but those of which that is said beforehand: a law on the definitions, so its body is
/// empty.
pub fn others_do_not_update<T>()
    ensures { OthersDoNotUpdate T }
{}
