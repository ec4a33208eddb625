//! Laws on the definitions of updates.
ghost use Rattle.dir_store.specs.Joins.{DirectoriesJoin, RepliesJoin};
ghost use Rattle.dir_store.specs.Order.{EntriesRise};
ghost use Rattle.dir_store.specs.Placed.{PlacesJoin, RepliesArePlaced};

/// Updates and then others come to what the others come to behind the first: a law on the definitions, so its body is
/// empty.
pub fn updates_join()
    ensures directories { DirectoriesJoin }
    ensures replies { RepliesJoin }
{}

/// Each update's reply is at its place in the list of the replies, also where updates follow others: a law on the
/// definitions.
pub fn replies_are_placed()
    ensures placed { RepliesArePlaced }
    ensures join { PlacesJoin }
{}

/// The entries of a directory stand in rising order of number, each once, whatever its updates were: a law on the
/// definitions.
pub fn entries_rise()
    ensures { EntriesRise }
{}
