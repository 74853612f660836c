// The judge: a record sheet and a rule sheet with their texts, and two lent areas, cells and list.
//
// Both calls are checks (`sheet`, `rules`), areas, clearing and judging (crate `run`): `judge` judges
// in whole, and `verdict`, which has no list, cut. Their contracts cite `specs/Call.antt` of crate
// `answer`.
#![tactic(auto)]

ghost use Rattle.std.specs.Prelude.{◌≡◌};
ghost use Rattle.sheet.specs.Refusals.{accepted, outcome_of};
ghost use Rattle.sheet.specs.Faults.{record_outcome};
ghost use Rattle.rules.specs.Check.{rules_outcome};
ghost use Rattle.lent.specs.Lent.{way_by};
ghost use Rattle.answer.specs.Call.{leaves, call_leaves, verdict_leaves};

use answer::{Answer, Judged};
use recordcheck::check_record;
use rulecheck::check_rules;
use rulesheet::form::RuleForm;
use run::list_room;
use sheet::record::{RecordForm, wide};
use sheet::refusal::{Checked, Refusal, Refused};

// Judges a record by rules, whatever the words, texts and areas: valid, invalid or refused. A refused
// call leaves the areas as they were. Otherwise the first rows x schemas cells tell what became of each
// pair, and the first words of the list the settled pairs in order.
pub fn judge<'a>(
    record: &'a [u32],
    text: &'a [u8],
    rules: &'a [u32],
    rule_text: &'a [u8],
    cells: &mut [u8],
    list: &mut [u32],
) -> Answer
    ensures { call_leaves «record».now text.now rules.now rule_text.now cells.old list.old result cells.new list.new }
{
    judge_by_record(record, text, rules, rule_text, cells, list, false)
}

// Judges a record by rules as far as the verdict needs: a schema judges no clause after its first that
// fails, and allOf applies no entry after its first that fails. The verdict and the marked children of
// the root are those of `judge`; the cells tell of the pairs settled here, which are counted.
pub fn verdict<'a>(
    record: &'a [u32],
    text: &'a [u8],
    rules: &'a [u32],
    rule_text: &'a [u8],
    cells: &mut [u8],
) -> Answer
    ensures { verdict_leaves «record».now text.now rules.now rule_text.now cells.old result cells.new }
{
    let mut list = [0; 1];
    judge_by_record(record, text, rules, rule_text, cells, &mut list[..0], true)
}

// Both calls: in whole, or cut.
fn judge_by_record<'a>(
    record: &'a [u32],
    text: &'a [u8],
    rules: &'a [u32],
    rule_text: &'a [u8],
    cells: &mut [u8],
    list: &mut [u32],
    cut: bool,
) -> Answer
    ensures { leaves (way_by cut) «record».now text.now rules.now rule_text.now cells.old list.old result cells.new list.new }
{
    let n = check_record(record, text)?;
    let checked = check_rules(rules, rule_text);
    judge_checked(record, text, rules, rule_text, cells, list, cut, n, checked)
}

// The record is in order, with n rows, and `checked` is what the check of the rules gave.
pub fn judge_checked<'a>(
    record: &'a [u32],
    text: &'a [u8],
    rules: &'a [u32],
    rule_text: &'a [u8],
    cells: &mut [u8],
    list: &mut [u32],
    cut: bool,
    n: u32,
    checked: Checked,
) -> Answer
    requires record_accepted { record_outcome «record».now text.now ≡ accepted n }
    requires checked_is_rules_outcome { outcome_of checked ≡ rules_outcome rules.now rule_text.now }
    ensures { leaves (way_by cut) «record».now text.now rules.now rule_text.now cells.old list.old result cells.new list.new }
{
    let m = checked?;
    judge_in_areas(record, text, rules, rule_text, cells, list, cut, n, m)
}

// The rules are in order too, with m schemas.
fn judge_in_areas<'a>(
    record: &'a [u32],
    text: &'a [u8],
    rules: &'a [u32],
    rule_text: &'a [u8],
    cells: &mut [u8],
    list: &mut [u32],
    cut: bool,
    n: u32,
    m: u32,
) -> Answer
    requires text_value { record_outcome «record».now text.now ≡ accepted n }
    requires rule_text_value { rules_outcome rules.now rule_text.now ≡ accepted m }
    ensures { leaves (way_by cut) «record».now text.now rules.now rule_text.now cells.old list.old result cells.new list.new }
{
    let pairs = n * m;
    let size = wide(pairs);
    if cells.len() < size {
        return Err(Refused {
            refusal: Refusal::FewCells,
            place: pairs,
        });
    }
    if list.len() < list_room(size, cut) {
        return Err(Refused {
            refusal: Refusal::ShortList,
            place: pairs,
        });
    }
    let form = RecordForm::of(record);
    let rule_form = RuleForm::of(rules);
    let v = run::run(
        record, text, rules, rule_text, cells, list, form, rule_form, cut,
    );
    Ok(Judged {
        valid: v.ok,
        pairs: v.count,
        marked: v.marked,
    })
}
