// The keyword `required`: a row has a member of each name of a list.
ghost use Rattle.std.specs.Prelude.{map, ◌≡◌, ◌<◌};
ghost use Rattle.sheet.specs.Record.{doc_of};
ghost use Rattle.rulesheet.specs.declared.code.Fields.TheVariants.{Names};
ghost use Rattle.rulesheet.specs.Codes.{entry_name};
ghost use Rattle.rulesheet.specs.Clauses.{entries_of};
ghost use Rattle.meaning.specs.Tests.{members?, given};
ghost use Rattle.meaning.specs.Rules.{present};
ghost use Rattle.looking.specs.Read.{RecordRead};
ghost use Rattle.clause.specs.Read.{RulesRead, ListRead};

use looking::members::has_member;
use looking::numbers::is_kind;
use rulereader::entry_name;
use rulesheet::clause::Entries;
use rulesheet::form::RuleForm;
use sheet::kind::RowKind;
use sheet::record::{RecordForm, RecordRow, children_of};

// Whether the row, if it is an object, has a member of each name of the list.
pub(crate) fn required<'a>(
    record: &[u32],
    text: &'a [u8],
    form: RecordForm,
    row: RecordRow,
    rules: &[u32],
    rule_text: &'a [u8],
    rule_form: RuleForm,
    list: Entries,
) -> bool
    requires record_read { RecordRead «record».now text.now form × (row.0 < form.rows) }
    requires rules_read { RulesRead rules.now rule_text.now rule_form × ListRead rules.now rule_form Names list }
    ensures { result ≡ given (members? ((doc_of «record».now text.now).value row.0)) (present (doc_of «record».now text.now) (map (entry_name rule_text.now) (entries_of rules.now list))) }
{
    if !is_kind(record, form, row, RowKind::OBJECT) {
        return true;
    }
    let members = children_of(record, form, row).count;
    for i in 0..list.count {
        let name = entry_name(rules, rule_form, list, i);
        if !has_member(record, text, form, row, rule_text, name, i, members) {
            return false;
        }
    }
    true
}
