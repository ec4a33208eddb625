//! Names of types and classes.

ghost use Rattle.std.specs.Prelude.{◌≡◌, map};
ghost use Rattle.std.specs.List.{list_any};
ghost use Rattle.std.specs.String.{string_bytes};
ghost use Rattle.ldap_schema.specs.Schema.{is_called as is_called_by, is_same_name as is_name_alike};

/// Whether the two names are the same, without regard to case (RFC 4512 1.4).
fn is_same_name(a: &[u8], b: &[u8]) -> bool
    ensures { result ≡ is_name_alike a.now b.now }
{
    a.eq_ignore_ascii_case(b)
}

/// Whether the name is one of the names.
fn is_among(name: &[u8], names: &[String]) -> bool
    ensures { result ≡ list_any (λ other. is_name_alike name.now (string_bytes other)) names.now }
{
    names
        .iter()
        .any(|other| is_same_name(name, other.as_bytes()))
}

/// Whether the name is the object identifier or one of the names.
pub fn is_called(name: &[u8], oid: &str, names: &[String]) -> bool
    ensures { result ≡ is_called_by name.now oid.now (map string_bytes names.now) }
{
    name == oid.as_bytes() || is_among(name, names)
}
