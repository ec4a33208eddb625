//! Laws of what sessions ask for.
ghost use Rattle.ldap_session.specs.Conversing.{Begins, Listens, Speaks, IsWithOne};
ghost use Rattle.ldap_session.specs.Counting.{OneUpdateAMessage};
ghost use Rattle.ldap_session.specs.Visits.{IsSession};

use session_handler::Directory;

/// A session asks for at most one update a message: a law on the definitions, so its body is empty.
pub fn one_update_a_message<T>()
    ensures { OneUpdateAMessage T }
{}

/// A new conversation stands at its beginning: a law on the definitions, so its body is empty.
pub fn conversation_begins<D: Directory>()
    ensures { Begins D.allows }
{}

/// A conversation that hears a further piece stands where it stood, with the piece heard: a law on the definitions, so
/// its body is empty.
pub fn conversation_listens<D: Directory>()
    ensures { Listens D.allows }
{}

/// What is sent is what was said first of what is unsent, so what was given out is always the beginning of the
/// responses: a law on the definitions, so its body is empty.
pub fn conversation_speaks<D: Directory>()
    ensures { Speaks D.allows }
{}

/// Whichever directories serve its messages, what is answered is one session: a law on the definitions, so its body is
/// empty.
pub fn is_session<D: Directory>()
    ensures { IsSession D.allows }
{}

/// Where one directory served all its messages, a conversation is a session with it: a law on the definitions, so its
/// body is empty.
pub fn is_with_one<D: Directory>()
    ensures { IsWithOne D.allows }
{}
