//! A law about the definitions, as a function that does nothing: it says why a pair of the first version may be read.
ghost use Rattle.view_store.specs.FirstVersion.{FirstVersionIsRead};

/// What a store of the first version left in a slot is an open slot that any cluster takes, so that what is promised of
/// `load` and `store` holds from such a pair on: a law on the definitions.
pub fn first_version_is_read()
    ensures { FirstVersionIsRead }
{}
