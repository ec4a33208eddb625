// An index choice that is cheap to share.

ghost use Rattle.std.specs.Prelude.{◌≡◌, IfOk};

use index_choice::Indexes;
use std::alloc::{AllocError, Global};
use std::marker::Model;
use std::sync::Arc;

#[derive(Drop)]
enum Owned {
    Alone(Indexes),
    Together(Arc<Indexes>),
}

/// An index choice. It takes no memory to begin with. The first share makes a copy that owners have
/// in common; shares of that one cost a count.
#[derive(Drop)]
pub struct Choice {
    owned: Owned,
}

impl Model for Choice {
    ghost use Rattle.std.specs.Prelude.{List};
    ghost use Rattle.index_choice.specs.declared.kinds.Kinds.{Kinds};
    ghost use Rattle.dir_index.specs.Choices.{choice_in};

    ghost Value = { List Kinds };

    ghost view = { λ c. choice_in c.owned };
}

impl Choice {
    pub fn new(indexes: Indexes) -> Choice
        ensures { result ≡ indexes }
    {
        Choice {
            owned: Owned::Alone(indexes),
        }
    }

    pub fn indexes(&self) -> &Indexes
        ensures { result.now ≡ self.now }
    {
        match &self.owned {
            Owned::Alone(indexes) => indexes,
            Owned::Together(indexes) => indexes,
        }
    }

    /// Another owner of the same choice.
    pub fn share(&self, alloc: Global) -> Result<Choice, AllocError>
        ensures { IfOk result (λ c. c ≡ self.now) }
    {
        let together = match &self.owned {
            Owned::Alone(indexes) => Arc::new(alloc, indexes.copy(alloc)?)?,
            Owned::Together(indexes) => Arc::try_clone(indexes)?,
        };
        Ok(Choice {
            owned: Owned::Together(together),
        })
    }
}
