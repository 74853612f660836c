// The children of a row by name.
ghost use Rattle.std.specs.Prelude.{true, not, ◌≡◌, ◌<◌, eqb, length};
ghost use Rattle.text.specs.Part.{fits, part};
ghost use Rattle.sheet.specs.Doc.{child_count, is_object};
ghost use Rattle.sheet.specs.Record.{doc_of};
ghost use Rattle.meaning.specs.Rules.{called};
ghost use Rattle.looking.specs.Read.{RecordRead, child_named};

use sheet::record::{RecordForm, RecordRow, children_of, name_of};
use text::{Range, same_part};

// Whether the row has this name: the bytes of this range of the rule text.
fn has_name<'a>(
    record: &[u32],
    text: &'a [u8],
    form: RecordForm,
    row: RecordRow,
    rule_text: &'a [u8],
    name: Range,
) -> bool
    requires record_read { RecordRead «record».now text.now form × (row.0 < form.rows) }
    requires name_value { fits (length rule_text.now) name ≡ true }
    ensures { result ≡ called (doc_of «record».now text.now) (part rule_text.now name) row.0 }
{
    same_part(text, name_of(record, form, row), rule_text, name)
}

// Whether the row, an object, has a child at this place that has the name: no other has it then.
fn named_at<'a>(
    record: &[u32],
    text: &'a [u8],
    form: RecordForm,
    row: RecordRow,
    rule_text: &'a [u8],
    name: Range,
    at: u32,
) -> bool
    requires record_read { RecordRead «record».now text.now form × (row.0 < form.rows) × (is_object ((doc_of «record».now text.now).value row.0) ≡ true) }
    requires name_value { fits (length rule_text.now) name ≡ true }
    ensures { result ≡ true → (at < child_count ((doc_of «record».now text.now).value row.0)) × (at ≡ child_named (doc_of «record».now text.now) row.0 (part rule_text.now name)) }
{
    let children = children_of(record, form, row);
    if at < children.count {
        return has_name(
            record,
            text,
            form,
            RecordRow(children.first + at),
            rule_text,
            name,
        );
    }
    false
}

// Which child of the row, counted from 0, is the first that has this name; the number of children if
// none has.
fn first_named<'a>(
    record: &[u32],
    text: &'a [u8],
    form: RecordForm,
    row: RecordRow,
    rule_text: &'a [u8],
    name: Range,
) -> u32
    requires record_read { RecordRead «record».now text.now form × (row.0 < form.rows) }
    requires name_value { fits (length rule_text.now) name ≡ true }
    ensures { result ≡ child_named (doc_of «record».now text.now) row.0 (part rule_text.now name) }
{
    let children = children_of(record, form, row);
    let first = children.first;
    let count = children.count;
    for i in 0..count {
        if has_name(record, text, form, RecordRow(first + i), rule_text, name) {
            return i;
        }
    }
    count
}

// The place as far from the last of `count` places as `hint` is from the first.
fn mirrored(count: u32, hint: u32) -> u32 {
    count.saturating_sub(1).saturating_sub(hint)
}

// The same of an object. The child as far from the end as `hint` is from the start is tried first:
// members mostly stand in the order of the rules, or in the reverse one. This stands apart from what
// tries the child at `hint`, so that the compiler makes that part of its callers.
fn named_elsewhere<'a>(
    record: &[u32],
    text: &'a [u8],
    form: RecordForm,
    row: RecordRow,
    rule_text: &'a [u8],
    name: Range,
    hint: u32,
) -> u32
    requires record_read { RecordRead «record».now text.now form × (row.0 < form.rows) × (is_object ((doc_of «record».now text.now).value row.0) ≡ true) }
    requires name_value { fits (length rule_text.now) name ≡ true }
    ensures { result ≡ child_named (doc_of «record».now text.now) row.0 (part rule_text.now name) }
{
    let other = mirrored(children_of(record, form, row).count, hint);
    if named_at(record, text, form, row, rule_text, name, other) {
        return other;
    }
    first_named(record, text, form, row, rule_text, name)
}

// The same. The child at `hint` is tried first.
pub fn child_named<'a>(
    record: &[u32],
    text: &'a [u8],
    form: RecordForm,
    row: RecordRow,
    rule_text: &'a [u8],
    name: Range,
    hint: u32,
) -> u32
    requires object_read { RecordRead «record».now text.now form × (row.0 < form.rows) × (is_object ((doc_of «record».now text.now).value row.0) ≡ true) }
    requires name_fits { fits (length rule_text.now) name ≡ true }
    ensures { result ≡ child_named (doc_of «record».now text.now) row.0 (part rule_text.now name) }
{
    if named_at(record, text, form, row, rule_text, name, hint) {
        return hint;
    }
    named_elsewhere(record, text, form, row, rule_text, name, hint)
}

// Whether one of the members of the row, an object, has this name; that at `hint` is tried first.
pub fn has_member<'a>(
    record: &[u32],
    text: &'a [u8],
    form: RecordForm,
    row: RecordRow,
    rule_text: &'a [u8],
    name: Range,
    hint: u32,
    members: u32,
) -> bool
    requires object_read { RecordRead «record».now text.now form × (row.0 < form.rows) × (is_object ((doc_of «record».now text.now).value row.0) ≡ true) }
    requires name_fits_members_counted { (fits (length rule_text.now) name ≡ true) × (members ≡ child_count ((doc_of «record».now text.now).value row.0)) }
    ensures { result ≡ not (eqb (child_named (doc_of «record».now text.now) row.0 (part rule_text.now name)) members) }
{
    if named_at(record, text, form, row, rule_text, name, hint) {
        return true;
    }
    named_elsewhere(record, text, form, row, rule_text, name, hint) != members
}
