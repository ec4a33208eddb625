//! By how much the sum of what sessions hold changes where one of them holds more or less than is posted.
ghost use Rattle.std.specs.Prelude.{◌≡◌, ◌↔◌};
ghost use Rattle.session_turns.specs.Posted.{change, changed, UsedIsPosted};
ghost use Rattle.session_turns.specs.declared.posting.BudgetChange.{BudgetChange};

/// What becomes of a sum.
#[derive(Clone, Copy, Debug, PartialEq, Eq)]
pub enum BudgetChange {
    Stays,
    /// So much comes.
    Adds(u64),
    /// So much goes.
    Gives(u64),
}

/// What becomes of the sum where so much of a session is posted, and it holds this.
pub fn change_to(posted: u64, held: u64) -> BudgetChange
    ensures result { result ≡ change posted held }
    ensures held { changed posted result ≡ held }
    ensures stays { (result ≡ BudgetChange.Stays) ↔ (posted ≡ held) }
{
    if held > posted {
        BudgetChange::Adds(held - posted)
    } else if held < posted {
        BudgetChange::Gives(posted - held)
    } else {
        BudgetChange::Stays
    }
}

/// Whatever sessions come to hold, the sum is what is posted of all of them: a law on the definitions, so its body is
/// empty.
pub fn used_is_posted()
    ensures { UsedIsPosted }
{}
