// Laws on the definitions of a local directory.
ghost use Rattle.local_directory.specs.Made.{DirectoryIsFold, MadeOnce};

/// After any talk the directory is the fold of the updates that the talk made, and their replies are those of their
/// definitions: a law on the definitions, so its body is empty.
pub fn directory_is_fold()
    ensures { DirectoryIsFold }
{}

/// A request is made at most once: asked again it is answered the same, and changes nothing. A law on the definitions,
/// so its body is empty.
pub fn requests_are_made_once()
    ensures { MadeOnce }
{}
