//! The canonical form of a request's fields.

ghost use Rattle.std.specs.Prelude.{◌≡◌, ◌↔◌, IsTrue, map};
ghost use Rattle.std.specs.List.{AllByRecursion};
ghost use Rattle.tl_s3.specs.Canonical as spec;
ghost use Rattle.tl_s3.specs.CanonicalRequests.{field_of};

use crate::request::Field;

// Reports whether no character is a capital letter.
fn is_lower(text: &[u8]) -> bool
    ensures lower { result ≡ spec.is_lower text.now }
{
    for byte in text {
        if byte.is_ascii_uppercase() {
            return false;
        }
    }
    true
}

// Reports whether a text neither begins nor ends with a blank, and no blank follows another.
fn is_trimmed(text: &[u8]) -> bool
    ensures trimmed { result ≡ spec.is_trimmed text.now }
{
    let mut before = true;
    for byte in text {
        let is_blank = *byte <= b' ';
        if is_blank && before {
            return false;
        }
        before = is_blank;
    }
    text.is_empty() || !before
}

// Reports whether the name of a field comes before that of another.
#[tactic(auto, using(crate::proofs::Names::before_is))]
fn comes_before(field: &Field<'_>, next: &Field<'_>) -> bool
    ensures before { result ≡ spec.comes_before field.now.name.now next.now.name.now }
{
    field.name < next.name
}

// Reports whether a field's name is in lower case and its value trimmed.
fn is_canonical_field(field: &Field<'_>) -> bool
    ensures canonical { IsTrue result ↔ spec.IsCanonicalField (field_of field.now) }
{
    is_lower(field.name.as_bytes()) && is_trimmed(field.value.as_bytes())
}

// Reports whether each field's name is in lower case and its value trimmed.
fn are_canonical_fields(fields: &[Field<'_>]) -> bool
    ensures each { IsTrue result
        ↔ AllByRecursion spec.IsCanonicalField (map field_of fields.now) }
{
    let [first, rest @ ..] = fields else {
        return true;
    };
    if !is_canonical_field(first) {
        return false;
    }
    are_canonical_fields(rest)
}

// Reports whether each name comes before the next.
fn ascend(fields: &[Field<'_>]) -> bool
    ensures ordered { result ≡ spec.ascend (map field_of fields.now) }
{
    let [first, rest @ ..] = fields else {
        return true;
    };
    let [second, ..] = rest else {
        return true;
    };
    if !comes_before(first, second) {
        return false;
    }
    ascend(rest)
}

/// Reports whether fields are in canonical form: names in lower case and in order, each once, and trimmed values
/// ("Signature Calculations for the Authorization Header", Task 1). It allocates nothing.
pub fn is_canonical(fields: &[Field<'_>]) -> bool
    ensures canonical { IsTrue result ↔ spec.IsCanonical (map field_of fields.now) }
{
    are_canonical_fields(fields) && ascend(fields)
}
