// Looks up the matching rules that items name.

ghost use Rattle.std.specs.Prelude.{◌≡◌, ◌&&◌};
ghost use Rattle.dir_entry.specs.ldap_words.Families.{is_textual, is_used_on as is_family_used_on};
ghost use Rattle.ldap_eval.specs.Matching as matching;

use dir_entry::{
    Family, Rule, Schema, Syntax, TypeId, equality_family, equality_rule, has_ordering, is_used_on,
    ordering_family,
};

/// An equality or an ordering rule (RFC 4517 4.2).
#[derive(Clone, Copy, Debug, PartialEq, Eq)]
pub struct NamedRule {
    /// The family of rules.
    pub family: Family,
    /// Whether it is the ordering rule.
    pub less: bool,
}

/// How an item compares values.
#[derive(Clone, Copy, Debug, PartialEq, Eq)]
pub enum How {
    /// By the EQUALITY rule of their own type.
    Own,
    /// By a rule that the item names.
    Named(NamedRule),
}

/// The equality or ordering rule of a name in any case, or of an object identifier; none, where it is no such rule.
pub fn named_rule(word: &[u8]) -> Option<NamedRule>
    ensures { result ≡ matching.named_rule word.now }
{
    match equality_family(word) {
        Some(family) => Some(NamedRule {
            family,
            less: false,
        }),
        None => match ordering_family(word) {
            Some(family) => Some(NamedRule { family, less: true }),
            None => None,
        },
    }
}

/// Whether the syntax is one of text.
fn is_text(syntax: Syntax) -> bool
    ensures { result ≡ is_textual syntax }
{
    is_used_on(Family::Ignore, syntax)
}

/// Whether an EQUALITY rule is that of a family on a syntax.
fn is_rule_of(equality: Option<Rule>, family: Family, syntax: Syntax) -> bool
    ensures { result ≡ matching.is_rule_of equality family syntax }
{
    match equality {
        Some(rule) => is_used_on(rule.family, syntax) && is_used_on(family, rule.syntax),
        None => false,
    }
}

/// Whether values of a syntax can be compared by the family's rules.
fn is_supported(syntax: Syntax, equality: Option<Rule>, family: Family) -> bool
    ensures { result ≡ is_family_used_on family syntax && matching.is_own_or_text syntax equality family }
{
    is_used_on(family, syntax) && (is_text(syntax) || is_rule_of(equality, family, syntax))
}

/// The rule of a family on the values of the type; none, where the type doesn't support it.
fn supported_rule(schema: &Schema, type_id: TypeId, family: Family) -> Option<Rule>
    ensures { result ≡ matching.supported_rule schema.now type_id family }
{
    let attribute_type = schema.attribute_type(type_id)?;
    let syntax = attribute_type.syntax();
    if is_supported(syntax, attribute_type.equality(), family) {
        Some(Rule { family, syntax })
    } else {
        None
    }
}

/// The rule by which an item compares the values of the type; none, where the type lacks or doesn't support it.
pub fn rule_for(schema: &Schema, how: How, type_id: TypeId) -> Option<Rule>
    ensures { result ≡ matching.rule_for schema.now how type_id }
{
    match how {
        How::Own => equality_rule(schema, type_id),
        How::Named(rule) => supported_rule(schema, type_id, rule.family),
    }
}

/// Whether values are to be less than the assertion.
pub fn asks_less(how: How) -> bool
    ensures { result ≡ matching.asks_less how }
{
    match how {
        How::Own => false,
        How::Named(rule) => rule.less && has_ordering(rule.family),
    }
}

/// Whether the values of the type are text.
fn is_of_text(schema: &Schema, type_id: TypeId) -> bool
    ensures { result ≡ matching.is_text_type schema.now type_id }
{
    match schema.attribute_type(type_id) {
        Some(attribute_type) => is_text(attribute_type.syntax()),
        None => false,
    }
}

/// Whether the rule is the type's own EQUALITY rule, under which its values keep keys.
pub fn goes_by_key(schema: &Schema, how: How, type_id: TypeId) -> bool
    ensures { result ≡ matching.goes_by_key schema.now how type_id }
{
    match how {
        How::Own => true,
        How::Named(_) => !is_of_text(schema, type_id),
    }
}
