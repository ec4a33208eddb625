// Shows that what a plan's set says of a number is what the plan says of the entry. A law, with no code.

ghost use Rattle.search_plans.specs.Sets.{SetsAreOfEntries};

/// Over the posting lists of any entries, under any index choice and any scope: the number of an entry in scope is
/// in the set of a plan just where the plan holds of the entry.
pub fn sets_are_of_entries()
    ensures { SetsAreOfEntries }
{}
