//! Finds the types that a filter asks about, by which entries are read ahead. It decides cost alone.
use indexed_tree::TypesAhead;
use ldap_eval::BoundFilter;

/// These types, and those that the filter asks about.
#[cycle(asked)]
pub fn types_asked(bound: &BoundFilter, types: TypesAhead) -> TypesAhead {
    match bound {
        BoundFilter::And(parts) => types_in(parts, types),
        BoundFilter::Or(parts) => types_in(parts, types),
        BoundFilter::Not(part) => types_asked(part, types),
        BoundFilter::Undefined => types,
        BoundFilter::Leaf(leaf) => types.with(leaf.type_id),
        BoundFilter::Match(matching) => types.with(matching.type_id),
    }
}

/// These types, and those that the filters ask about.
#[cycle(asked)]
fn types_in(parts: &[BoundFilter], types: TypesAhead) -> TypesAhead {
    let mut all = types;
    for part in parts {
        all = types_asked(part, all);
    }
    all
}
