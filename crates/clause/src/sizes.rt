// The lengths of strings. A row that is no string keeps them.
ghost use Rattle.std.specs.Prelude.{◌≡◌, ◌<◌};
ghost use Rattle.sheet.specs.Record.{doc_of};
ghost use Rattle.meaning.specs.Tests.{bytes?, length_of, at_least, at_most};
ghost use Rattle.looking.specs.Read.{RecordRead};

use looking::sizes::{length_of, string_in};
use sheet::record::{RecordForm, RecordRow};
use testing::sizes::{FEW, at_least, at_most, few_bytes, few_characters};

// Whether the row, if it is a string, has at least k characters.
pub(crate) fn min_length(
    record: &[u32],
    text: &[u8],
    form: RecordForm,
    row: RecordRow,
    k: u32,
) -> bool
    requires { RecordRead «record».now text.now form × (row.0 < form.rows) }
    ensures { result ≡ at_least length_of k (bytes? ((doc_of «record».now text.now).value row.0)) }
{
    let found = string_in(record, form, row);
    if k <= FEW {
        return few_characters(text, found, k);
    }
    at_least(length_of(text, found), k)
}

// Whether the row, if it is a string, has at most k characters. A short one is not counted.
pub(crate) fn max_length(
    record: &[u32],
    text: &[u8],
    form: RecordForm,
    row: RecordRow,
    k: u32,
) -> bool
    requires { RecordRead «record».now text.now form × (row.0 < form.rows) }
    ensures { result ≡ at_most length_of k (bytes? ((doc_of «record».now text.now).value row.0)) }
{
    let found = string_in(record, form, row);
    if few_bytes(found, k) {
        return true;
    }
    at_most(length_of(text, found), k)
}
