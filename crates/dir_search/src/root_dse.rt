//! The root DSE: what a search of the empty name alone finds. It is no entry of the directory.
ghost use Rattle.std.specs.Prelude.{◌≡◌, ◌++◌, ◌∷◌, [], Some, map, codes, IfOk, OnOk};
ghost use Rattle.ldap_filter.specs.View.{view as filter_view};
ghost use Rattle.ldap_eval.specs.Value.{filter_value};
ghost use Rattle.search_plans.specs.Runs.{is_true};
ghost use Rattle.indexed_tree.specs.directory_api.ldap_msg.View.{attribute_view, search_view};
ghost use Rattle.indexed_tree.specs.directory_api.FoundView.{found_view};
ghost use Rattle.indexed_tree.specs.dir_entry.Entry.{attributes_of, IsKeyedBy};
ghost use Rattle.dir_search.specs.Answer.{dse_matching};
ghost use Rattle.dir_search.specs.private.View.{selectors_of, Finds};
ghost use Rattle.dir_search.specs.RootDse.{class_top, dse_attributes, dse_selected, where_named, without_values};

use crate::searching::matches;
use crate::selecting::{Showing, shows_for};
use indexed_tree::{
    Entry, EntryError, FoundEntry, Name, PartialAttribute, Reading, ResultCode, Schema,
    SearchAnswer, SearchRequest, TypeId,
};
use ldap_eval::bind;
use ldap_filter::Filter;
use std::alloc::{AllocError, Global};

/// The values of objectClass.
fn top(alloc: Global) -> Result<Vec<Vec<u8>>, AllocError>
    ensures { IfOk result (λ v. map (λ x. x.items) v.items ≡ codes "top" ∷ []) }
{
    let mut values = Vec::new(alloc);
    values.push(Vec::from_slice(alloc, b"top")?)?;
    Ok(values)
}

/// An entry whose objectClass is top; one without attributes, where top is no class.
fn entry_of_top(alloc: Global, schema: &Schema, object_class: TypeId) -> Result<Entry, AllocError>
    ensures attributes { IfOk result (λ e. attributes_of e ≡ class_top schema.now (Some object_class)) }
    ensures keyed { IfOk result (λ e. IsKeyedBy schema.now e) }
{
    let mut entry = Entry::new(alloc);
    let values = top(alloc)?;
    match entry.add(alloc, schema, object_class, values) {
        Ok(()) => Ok(entry),
        Err(EntryError::NoMemory) => Err(AllocError),
        Err(_) => Ok(entry),
    }
}

/// What a filter sees of the root DSE, with its keys.
fn root_entry(alloc: Global, schema: &Schema) -> Result<Entry, AllocError>
    ensures attributes { IfOk result (λ e. attributes_of e ≡ dse_attributes schema.now) }
    ensures keyed { IfOk result (λ e. IsKeyedBy schema.now e) }
{
    match schema.find("objectClass") {
        Some(object_class) => entry_of_top(alloc, schema, object_class),
        None => Ok(Entry::new(alloc)),
    }
}

/// The octets of texts.
fn octets_of(alloc: Global, texts: &[&str]) -> Result<Vec<Vec<u8>>, AllocError>
    ensures { IfOk result (λ v. map (λ x. x.items) v.items ≡ map (λ t. t.now) texts.now) }
{
    let mut all = Vec::new(alloc);
    for text in texts {
        all.push(Vec::from_slice(alloc, text.as_bytes())?)?;
    }
    Ok(all)
}

impl Showing<'_> {
    /// An operational attribute with these values, or without them.
    fn operational(&self, name: &str, values: &[&str]) -> Result<PartialAttribute, AllocError>
        ensures { IfOk result (λ a. attribute_view a ≡ without_values self.now.request.now.types_only
            (record { description = name.now; values = map (λ t. t.now) values.now })) }
    {
        let values = if self.request.types_only {
            Vec::new(self.alloc)
        } else {
            octets_of(self.alloc, values)?
        };
        let description = String::from_str(self.alloc, name)?;
        Ok(PartialAttribute {
            description,
            values,
        })
    }

    /// Adds an operational attribute, where a selector is its name.
    fn add_asked(
        &self,
        shown: &mut Vec<PartialAttribute>,
        name: &str,
        values: &[&str],
    ) -> Result<(), AllocError>
        ensures { OnOk result (map attribute_view shown.new.items ≡ map attribute_view shown.old.items
            ++ where_named (selectors_of self.now.request.now) self.now.request.now.types_only
            (record { description = name.now; values = map (λ t. t.now) values.now })) }
    {
        if self.shows.asks_for(name) {
            shown.push(self.operational(name, values)?)?;
        }
        Ok(())
    }
}

/// What is shown of the root DSE.
fn shown_root(
    alloc: Global,
    store: &Reading<'_>,
    entry: &Entry,
    request: &SearchRequest,
) -> Result<FoundEntry, AllocError>
    requires attributes { attributes_of entry.now ≡ dse_attributes store.now.directory.schema }
    ensures { IfOk result (λ e. found_view e ≡ dse_selected store.now.directory (selectors_of request.now)
        request.now.types_only) }
{
    let shows = shows_for(alloc, store, request)?;
    let showing = Showing {
        alloc,
        schema: store.schema(),
        request,
        shows: &shows,
    };
    let mut attributes = shows.copy_shown(alloc, entry.attributes())?;
    let suffix = store.printed_suffix(alloc)?;
    let controls = ["2.25.20120101", "2.25.20120102"];
    showing.add_asked(&mut attributes, "namingContexts", &[&suffix])?;
    showing.add_asked(&mut attributes, "supportedControl", &controls)?;
    showing.add_asked(&mut attributes, "supportedExtension", &["2.25.20120103"])?;
    showing.add_asked(&mut attributes, "supportedLDAPVersion", &["3"])?;
    Ok(FoundEntry::made(String::new(alloc), attributes))
}

/// Whether a filter's value on the root DSE is True.
fn takes_root(
    alloc: Global,
    schema: &Schema,
    entry: &Entry,
    filter: &Filter,
) -> Result<bool, AllocError>
    requires attributes { attributes_of entry.now ≡ dse_attributes schema.now }
    requires keyed { IsKeyedBy schema.now entry.now }
    ensures { IfOk result (λ b. b ≡ is_true (filter_value schema.now (filter_view filter.now) []
        (dse_attributes schema.now))) }
{
    let bound = bind(alloc, schema, filter)?;
    let unnamed = Name::from_rdns(Vec::new(alloc));
    Ok(matches(&bound, entry, &unnamed))
}

/// The search of the empty name alone (RFC 4512 5.1).
pub fn show_root(
    alloc: Global,
    store: &Reading<'_>,
    request: &SearchRequest,
) -> Result<SearchAnswer, AllocError>
    ensures found { IfOk result
        (λ a. Finds a (record {
          code = 0;
          matched = [];
          entries = dse_matching store.now.directory
              (search_view request.now);
        }) 1) }
    ensures counted { IfOk result (λ a. a.tests ≡ 1) }
{
    let entry = root_entry(alloc, store.schema())?;
    let mut entries = Vec::new(alloc);
    if takes_root(alloc, store.schema(), &entry, &request.filter)? {
        entries.push(shown_root(alloc, store, &entry, request)?)?;
    }
    Ok(SearchAnswer {
        code: ResultCode::SUCCESS,
        matched: String::new(alloc),
        entries,
        tests: 1,
    })
}
