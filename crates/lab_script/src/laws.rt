//! The law that a text writes one thing at most.

ghost use Rattle.std.specs.Prelude.{◌≡◌, ℕ, List};
ghost use Rattle.ldif.specs.ldap_msg.Messages.{SearchRequestValue};
ghost use Rattle.dir_lab.specs.ldap_op.Values.{OpValue};
ghost use Rattle.lab_script.specs.Searches.{IsSearchText};
ghost use Rattle.lab_script.specs.Updates.{IsUpdateText};

use filter_text::one_filter_text;
use ldif::one_message;

/// A text writes one update at most.
pub fn one_update()
    ensures { (text : List ℕ) (op other : OpValue) → IsUpdateText text op → IsUpdateText text other → op ≡ other }
{
    one_message()
}

/// A text writes one search at most.
pub fn one_search()
    ensures { (text : List ℕ) (q other : SearchRequestValue) → IsSearchText text q → IsSearchText text other →
        q ≡ other }
{
    one_filter_text()
}
