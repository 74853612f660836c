// How many members and elements a row has.
ghost use Rattle.std.specs.Prelude.{List, ◌≡◌, ℕ, ◌<◌};
ghost use Rattle.sheet.specs.Record.{doc_of};
ghost use Rattle.sheet.specs.Accepted.{Laid};
ghost use Rattle.plan.specs.Plan.{member_count, element_count};

use looking::sizes::{elements_of, members_of};
use sheet::record::{RecordForm, RecordRow};

// How many members the row has: none if it is no object.
pub fn members_in(record: &[u32], form: RecordForm, row: RecordRow) -> u32
    requires { Laid «record».now form × (row.0 < form.rows) }
    ensures { (ts : List ℕ) → result ≡ member_count ((doc_of «record».now ts).value row.0) }
{
    members_of(record, form, row).unwrap_or(0)
}

// How many elements it has: none if it is no array.
pub fn elements_in(record: &[u32], form: RecordForm, row: RecordRow) -> u32
    requires { Laid «record».now form × (row.0 < form.rows) }
    ensures { (ts : List ℕ) → result ≡ element_count ((doc_of «record».now ts).value row.0) }
{
    elements_of(record, form, row).unwrap_or(0)
}
