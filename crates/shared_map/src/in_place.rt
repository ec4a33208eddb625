//! Changes of a tree that leave no older one: nodes that the tree alone owns are changed where they stand, others are
//! copied.
ghost use Rattle.std.specs.Prelude.{◌≡◌, ◌+◌, ◌≤◌, length, IfOk, OnOk, IsTrue};
ghost use Rattle.shared_map.specs.Altered.{altered_at};
ghost use Rattle.shared_map.specs.Entries.{Rises};

use crate::change::ValueChange;
use crate::shared::Shared;
use crate::tree::{Node, Tree, grown, place, rebalanced};
use std::alloc::{AllocError, Global};
use std::cmp::Ordering;
use std::mem;
use std::sync::Arc;

// The entries with what becomes of the value at a key, and the place of that entry. A full leaf gets room for twice as
// many, up to one more than a leaf has.
fn put<K: Ord + Shared, V: Shared, C: ValueChange<V>>(
    mut items: Vec<(K, V)>,
    alloc: Global,
    key: &K,
    change: C,
) -> Result<(Vec<(K, V)>, usize), AllocError>
    requires { Rises K.cmp items.items }
    ensures { IfOk result (λ v. v.0.items ≡ altered_at K.cmp (C.becomes change) items.items key.now) }
{
    match place(&items, key) {
        Ok(at) => {
            change.alter(alloc, &mut items[at].1)?;
            Ok((items, at))
        }
        Err(at) => {
            let first = (key.share()?, change.first(alloc)?);
            make_room(&mut items)?;
            items.insert(at, first)?;
            Ok((items, at))
        }
    }
}

// Room for one more entry: for twice as many, up to one more than a leaf has.
fn make_room<K: Shared, V: Shared>(items: &mut Vec<(K, V)>) -> Result<(), AllocError>
    ensures { items.new.items ≡ items.old.items }
{
    let count = items.len();
    if count == items.capacity() {
        let most = V::most_in_leaf().saturating_add(1).saturating_sub(count);
        items.reserve_exact(most.min(count).max(1))?;
    }
    Ok(())
}

// How high a tree is, and how many entries it has.
fn extent<K: Ord + Drop, V: Drop>(tree: &Tree<K, V>) -> (u8, u64)
    ensures { result ≡ (tree.now.1, length tree.now.0) }
{
    (tree.height(), tree.len())
}

// Counts the entries of a fork anew, one of whose sides has changed but is as high as before; else false.
fn recount(count: &mut u64, before: (u8, u64), after: (u8, u64)) -> bool
    requires { before.1 ≤ count.old }
    ensures same { IsTrue result → before.0 ≡ after.0 }
    ensures count { IsTrue result → count.new + before.1 ≡ count.old + after.1 }
{
    if before.0 != after.0 {
        return false;
    }
    match (*count - before.1).checked_add(after.1) {
        Some(all) => {
            *count = all;
            true
        }
        None => false,
    }
}

/// What becomes of the value at a key, and how high the tree is then, and how many entries it has. A node with one
/// owner is changed where it stands, others are copied. Out of memory entries may be lost.
pub fn alter<K: Ord + Shared, V: Shared, C: ValueChange<V>>(
    tree: &mut Arc<Tree<K, V>>,
    alloc: Global,
    key: &K,
    change: C,
) -> Result<(u8, u64), AllocError>
    ensures entries { OnOk result (tree.new.value.0 ≡ altered_at K.cmp (C.becomes change) tree.old.value.0 key.now) }
    ensures height { OnOk result ((tree.old.value.1 ≤ tree.new.value.1) × (tree.new.value.1 ≤ tree.old.value.1 + 1)) }
    ensures extent { IfOk result (λ e. e ≡ (tree.new.value.1, length tree.new.value.0)) }
{
    let Some(own) = Arc::get_mut(tree) else {
        *tree = tree.altered(alloc, key, change)?;
        return Ok(extent(tree));
    };
    match &mut own.node {
        Node::Leaf(items) => {
            let all = mem::replace(items, Vec::new(alloc));
            let (more, newest) = put(all, alloc, key, change)?;
            if more.len() <= V::most_in_leaf() {
                *items = more;
            } else {
                *tree = grown(alloc, more, newest)?;
            }
            return Ok(extent(tree));
        }
        Node::Fork(_, n, l, k, r) => match key.cmp(k) {
            Ordering::Less => {
                let before = extent(l);
                match alter(l, alloc, key, change) {
                    Ok(after) => {
                        if recount(n, before, after) {
                            return Ok(extent(tree));
                        }
                    }
                    Err(e) => {
                        own.node = Node::Leaf(Vec::new(alloc));
                        return Err(e);
                    }
                }
            }
            _ => {
                let before = extent(r);
                match alter(r, alloc, key, change) {
                    Ok(after) => {
                        if recount(n, before, after) {
                            return Ok(extent(tree));
                        }
                    }
                    Err(e) => {
                        own.node = Node::Leaf(Vec::new(alloc));
                        return Err(e);
                    }
                }
            }
        },
    }
    match mem::replace(&mut own.node, Node::Leaf(Vec::new(alloc))) {
        Node::Leaf(_) => unreachable!(),
        Node::Fork(_, _, l, k, r) => *tree = rebalanced(alloc, l, k, r)?,
    }
    Ok(extent(tree))
}
