//! Fields by their names.
ghost use Rattle.std.specs.Prelude.{◌≡◌, map, option_map};
ghost use Rattle.http_wire.specs.Fields.{is_named, fields_named, value_of_one};
ghost use Rattle.http_wire.specs.Inbox.{field_view};
ghost use Rattle.http_wire.specs.private.Parse.{AreOfName};

use crate::message::Field;

/// The fields of one name.
#[derive(Clone, Copy)]
pub(crate) enum FieldsOfName<'a> {
    Absent,
    Once(Field<'a>),
    Repeated,
}

fn is_named(field: &Field<'_>, name: &[u8]) -> bool
    ensures { result ≡ is_named name.now (field_view field.now) }
{
    field.name.eq_ignore_ascii_case(name)
}

/// The fields that have the name, whatever the case of ASCII letters.
pub(crate) fn find_named<'a>(fields: &[Field<'a>], name: &[u8]) -> FieldsOfName<'a>
    ensures { AreOfName (fields_named name.now (map field_view fields.now)) result }
{
    let mut first: Option<Field<'a>> = None;
    for field in fields {
        if is_named(field, name) {
            if first.is_some() {
                return FieldsOfName::Repeated;
            }
            first = Some(*field);
        }
    }
    match first {
        Some(field) => FieldsOfName::Once(field),
        None => FieldsOfName::Absent,
    }
}

/// The value of the one field that has the name, whatever the case of ASCII letters; `None` where there is none or more
/// than one.
pub fn sole_value<'a>(fields: &[Field<'a>], name: &[u8]) -> Option<&'a [u8]>
    ensures { option_map (λ value. value.now) result ≡ value_of_one (fields_named name.now (map field_view fields.now)) }
{
    match find_named(fields, name) {
        FieldsOfName::Once(field) => Some(field.value),
        FieldsOfName::Absent | FieldsOfName::Repeated => None,
    }
}
