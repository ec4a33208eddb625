//! The numbers of the entries that a search looks at: sets that the tree keeps.
ghost use Rattle.std.specs.Prelude.{◌≡◌, [], true, false, is_some};
ghost use Rattle.indexed_tree.specs.ldap_dn.Names.{rdns};
ghost use Rattle.indexed_tree.specs.dir_tree.Directory.{begins, find, numbers};
ghost use Rattle.dir_search.specs.Answer.{is_empty};
ghost use Rattle.dir_search.specs.Scopes.{is_right_under};

use indexed_tree::{NumberSet, Rdn, Tree};

/// Whether a name is the empty one.
pub fn is_unnamed(base: &[Rdn]) -> bool
    ensures { result ≡ is_empty base.now }
{
    base.is_empty()
}

/// The numbers of the entries right under a name that has one. No number is lent too, for where there is none.
#[tactic(auto, using(crate::proofs::Scoped::level_kept, crate::proofs::Scoped::level_none))]
pub fn numbers_right_under<'a>(tree: &'a Tree, none: &'a NumberSet, base: &[Rdn]) -> &'a NumberSet
    requires none { none.now ≡ [] }
    requires here { is_some (find (rdns base.now) tree.now.entries) ≡ true }
    requires named { is_empty base.now ≡ false }
    ensures { result.now ≡ numbers (λ e. is_right_under (rdns tree.now.suffix) (rdns base.now) (rdns e.name))
        tree.now.entries }
{
    match tree.children(base) {
        Some(numbers) => numbers,
        None => none,
    }
}

/// The numbers of all entries.
#[tactic(auto, using(crate::proofs::Scoped::all_kept, crate::proofs::Scoped::all_none))]
fn all_numbers<'a>(tree: &'a Tree, none: &'a NumberSet) -> &'a NumberSet
    requires { none.now ≡ [] }
    ensures { result.now ≡ numbers (λ e. true) tree.now.entries }
{
    tree.is_within();
    tree.is_rooted();
    match tree.subtree(tree.suffix().rdns()) {
        Some(numbers) => numbers,
        None => none,
    }
}

/// The numbers of the entries at or below a name that has one.
#[tactic(auto, using(crate::proofs::Scoped::subtree_kept, crate::proofs::Scoped::subtree_none))]
fn numbers_below<'a>(tree: &'a Tree, none: &'a NumberSet, base: &[Rdn]) -> &'a NumberSet
    requires none { none.now ≡ [] }
    requires here { is_some (find (rdns base.now) tree.now.entries) ≡ true }
    ensures { result.now ≡ numbers (λ e. begins (rdns base.now) (rdns e.name)) tree.now.entries }
{
    match tree.subtree(base) {
        Some(numbers) => numbers,
        None => none,
    }
}

/// The numbers of the entries at or below a name that has one, or the empty name.
#[tactic(auto, using(crate::proofs::Scoped::below_all))]
pub fn numbers_within<'a>(tree: &'a Tree, none: &'a NumberSet, base: &[Rdn]) -> &'a NumberSet
    requires none { none.now ≡ [] }
    requires here { is_empty base.now ≡ false → is_some (find (rdns base.now) tree.now.entries) ≡ true }
    ensures { result.now ≡ numbers (λ e. begins (rdns base.now) (rdns e.name)) tree.now.entries }
{
    if base.is_empty() {
        all_numbers(tree, none)
    } else {
        numbers_below(tree, none, base)
    }
}
