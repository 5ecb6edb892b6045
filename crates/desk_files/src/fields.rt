//! The fields of a record.

ghost use Rattle.std.specs.Prelude.{◌≡◌, ◌≢◌, [], ◌∷◌, length};
ghost use Rattle.std.specs.Option.{MatchOption};
ghost use Rattle.csv.specs.Records.{fields_of};

use csv::ByteRecord;

/// The four fields of a record.
#[derive(Clone, Copy)]
pub(crate) struct Fields<'a> {
    pub(crate) id: &'a [u8],
    pub(crate) name: &'a [u8],
    pub(crate) token: &'a [u8],
    pub(crate) tags: &'a [u8],
}

/// The fields of a record that has just four.
pub(crate) fn four_fields(record: &ByteRecord) -> Option<Fields<'_>>
    ensures { MatchOption result (length (fields_of record.now) ≢ 4) (λ f. fields_of record.now ≡ f.id.now ∷ f.name.now ∷ f.token.now ∷ f.tags.now ∷ []) }
{
    if record.len() != 4 {
        return None;
    }
    let id = record.get(0)?;
    let name = record.get(1)?;
    let token = record.get(2)?;
    let tags = record.get(3)?;
    Some(Fields {
        id,
        name,
        token,
        tags,
    })
}
