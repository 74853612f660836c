// What a row is, and its number if it is one.
ghost use Rattle.std.specs.Prelude.{List, ◌≡◌, ℕ, ◌<◌, eqb};
ghost use Rattle.sheet.specs.Kinds.{kind_number};
ghost use Rattle.sheet.specs.Doc.{value_kind};
ghost use Rattle.sheet.specs.Record.{doc_of};
ghost use Rattle.sheet.specs.Accepted.{Formed, Laid};
ghost use Rattle.looking.specs.Read.{NumberFound};

use decimal::Decimal;
use sheet::kind::RowKind;
use sheet::record::{RecordForm, RecordRow, kind_of, number_of};

// Whether the row is of the kind that has this number.
pub fn is_kind(record: &[u32], form: RecordForm, row: RecordRow, kind: u32) -> bool
    requires { Formed «record».now form × (row.0 < form.rows) }
    ensures { (ts : List ℕ) → result ≡ eqb (kind_number (value_kind ((doc_of «record».now ts).value row.0))) kind }
{
    kind_of(record, form, row).number() == kind
}

// The row's number, if it is one.
pub fn number_in(record: &[u32], form: RecordForm, row: RecordRow) -> Option<Decimal>
    requires { Laid «record».now form × (row.0 < form.rows) }
    ensures { (ts : List ℕ) → NumberFound ((doc_of «record».now ts).value row.0) result }
{
    is_kind(record, form, row, RowKind::NUMBER).then(|| number_of(record, form, row))
}
