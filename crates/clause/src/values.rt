// The keyword `enum`: a row equals one of the values of a list.
ghost use Rattle.std.specs.Prelude.{true, map, ◌≡◌, ◌<◌, length};
ghost use Rattle.sheet.specs.Record.{doc_of};
ghost use Rattle.rulesheet.specs.declared.code.Fields.TheVariants.{Values};
ghost use Rattle.rulesheet.specs.Codes.{entry_value};
ghost use Rattle.rulesheet.specs.Faults.{entry_ok};
ghost use Rattle.rulesheet.specs.Clauses.{entries_of};
ghost use Rattle.meaning.specs.Lists.{any};
ghost use Rattle.meaning.specs.Tests.{equal};
ghost use Rattle.looking.specs.Read.{RecordRead};
ghost use Rattle.clause.specs.Read.{RulesRead, ListRead};

use decimal::Decimal;
use rulereader::entry_of;
use rulesheet::clause::Entries;
use rulesheet::form::{EntryRow, RuleForm};
use sheet::kind::RowKind;
use sheet::record::{RecordForm, RecordRow, kind_of, number_of, string_of};
use text::{Range, same_part};

// Whether the row's value is the entry's: of the same kind, and for numbers and strings the same
// number and the same bytes.
fn equals_entry<'a>(
    record: &[u32],
    text: &'a [u8],
    form: RecordForm,
    row: RecordRow,
    rule_text: &'a [u8],
    entry: EntryRow,
) -> bool
    requires record_read { RecordRead «record».now text.now form × (row.0 < form.rows) }
    requires value { entry_ok Values (length rule_text.now) 0 entry ≡ true }
    ensures { result ≡ equal ((doc_of «record».now text.now).value row.0) (entry_value rule_text.now entry) }
{
    let kind = kind_of(record, form, row).number();
    if kind != entry.first {
        return false;
    }
    if kind == RowKind::NUMBER {
        let number = Decimal::of_word(entry.second, entry.third);
        return decimal::equal(number_of(record, form, row), number);
    }
    if kind == RowKind::STRING {
        let bytes = Range {
            start: entry.second,
            length: entry.third,
        };
        return same_part(text, string_of(record, form, row), rule_text, bytes);
    }
    true
}

// Whether the row's value is one of the list's.
pub(crate) fn enum_holds<'a>(
    record: &[u32],
    text: &'a [u8],
    form: RecordForm,
    row: RecordRow,
    rules: &[u32],
    rule_text: &'a [u8],
    rule_form: RuleForm,
    list: Entries,
) -> bool
    requires record_read { RecordRead «record».now text.now form × (row.0 < form.rows) }
    requires rules_read { RulesRead rules.now rule_text.now rule_form × ListRead rules.now rule_form Values list }
    ensures { result ≡ any (map (λ v. equal ((doc_of «record».now text.now).value row.0) v) (map (entry_value rule_text.now) (entries_of rules.now list))) }
{
    for i in 0..list.count {
        let entry = entry_of(rules, rule_form, list, i);
        if equals_entry(record, text, form, row, rule_text, entry) {
            return true;
        }
    }
    false
}
