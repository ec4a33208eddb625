// Laws of names: printed and read again, and told apart by what they mean.

ghost use Rattle.schema_laws.specs.MeaningNames.{NamesAreOneByMeaning};
ghost use Rattle.schema_laws.specs.NamePairs.{EntriesHaveReadNames, NamesAreAttributes, PairsAreAttributes};
ghost use Rattle.schema_laws.specs.PrintedRead.{PrintedIsRead, ReadNamesAreReadAgain};

use dir_entry::texts_tell;
use ldap_dn::{keys_compare, name_keys_are_of_names, parts_compare};

/// What is printed of a name of the schema's types is read as that name, its spelling too.
pub fn printed_is_read()
    ensures { PrintedIsRead }
{}

/// What is printed of a name that was read by a schema that was read is read as that name.
pub fn read_names_are_read_again()
    ensures { ReadNamesAreReadAgain }
{}

/// Two names that were read under one schema are one name exactly where they have as many relative names and those at
/// one place are equal as sets of types with what their values mean.
pub fn names_are_one_by_meaning()
    ensures { NamesAreOneByMeaning }
{
    keys_compare();
    parts_compare();
    name_keys_are_of_names();
}

/// Each name in the directory of a list of updates is made of relative names that were read.
pub fn entries_have_read_names()
    ensures { EntriesHaveReadNames }
{}

/// The item on a pair of a name whose relative names were read is the item on an attribute of the pair's type with its
/// value alone, and on such a name it is the `or` of these: what is told by keys is told by what values mean.
pub fn pairs_are_attributes()
    ensures pairs { PairsAreAttributes }
    ensures names { NamesAreAttributes }
{
    keys_compare();
    parts_compare();
    name_keys_are_of_names();
    texts_tell();
}
