// The run after both checks: the cells are cleared, the root pair is judged, its marks are counted.
//
// The contracts cite `specs/Whole.antt`, and of the root pair `specs/State.antt` of `progress`.
#![tactic(auto)]

ghost use Rattle.std.specs.Prelude.{◌≡◌, ◌+◌};
ghost use Rattle.areas.specs.Cells.{pair_is, Unsettled};
ghost use Rattle.lent.specs.Lent.{Sheets, case_of, way_by};
ghost use Rattle.lent.specs.Reads.{lent_case};
ghost use Rattle.meaning.specs.Answer.{list_room};
ghost use Rattle.progress.specs.State.{rank_of, Ready, Judged};
ghost use Rattle.run.specs.Whole.{Exact, Roomy, left_by, judged_of};

use areas::clear;
use columns::marked_of;
use cycle::cycle::judge_pair;
use lent::Lent;
use marking::verdict_of;
use rulesheet::form::RuleForm;
use sheet::record::{Pair, RecordForm, RecordRow, RuleRow, children_of, wide};
use trying::plain;

// What judging a record gives: whether it is valid, how many pairs are settled, and how many
// children of the root are marked.
#[derive(Clone, Copy)]
pub struct Verdict {
    pub ok: bool,
    pub count: usize,
    pub marked: usize,
}

// How many places of the list are asked, for so many pairs: none if judging is cut.
pub fn list_room(pairs: usize, cut: bool) -> usize
    ensures { result ≡ list_room (way_by cut) pairs }
{
    if cut { 0 } else { pairs }
}

// Judges the root pair, or any other that is not settled where none is.
fn judge_root(lent: &Lent<'_>, cells: &mut [u8], list: &mut [u32], p: Pair) -> usize
    requires ready { Ready (lent_case lent.now) (rank_of (lent_case lent.now) (pair_is p) + 1) (pair_is p) cells.old list.old 0 }
    requires unsettled { Unsettled (lent_case lent.now).m (pair_is p) cells.old }
    ensures { Judged (lent_case lent.now) (pair_is p) cells.old list.old 0 cells.new list.new result }
{
    let many = lent.clauses_of(p.rule);
    let passed = plain(lent, cells, p, many);
    judge_pair(lent, cells, list, 0, p, passed)
}

// In areas of exactly as many places as there are pairs.
fn run_exact(lent: &Lent<'_>, cells: &mut [u8], list: &mut [u32]) -> Verdict
    requires { Exact (lent_case lent.now) cells.old list.old }
    ensures { left_by result cells.new list.new ≡ judged_of (lent_case lent.now) cells.old list.old }
{
    clear(cells);
    let root = Pair {
        row: RecordRow(0),
        rule: RuleRow(0),
    };
    let count = judge_root(lent, cells, list, root);
    let ok = verdict_of(lent, cells, root) == 1;
    let kids = children_of(lent.record, lent.form, root.row);
    let marked = marked_of(cells, lent.schemas(), kids);
    Verdict { ok, count, marked }
}

// In areas of as many places or more, of which the first are used.
pub fn run<'a>(
    record: &'a [u32],
    text: &'a [u8],
    rules: &'a [u32],
    rule_text: &'a [u8],
    cells: &mut [u8],
    list: &mut [u32],
    form: RecordForm,
    rule_form: RuleForm,
    cut: bool,
) -> Verdict
    requires sheets_read { Sheets «record».now text.now rules.now rule_text.now form rule_form }
    requires roomy { Roomy (case_of (way_by cut) «record».now text.now rules.now rule_text.now) cells.old list.old }
    ensures { left_by result cells.new list.new ≡ judged_of (case_of (way_by cut) «record».now text.now rules.now rule_text.now) cells.old list.old }
{
    let lent = Lent {
        record,
        text,
        form,
        rules,
        rule_text,
        rule_form,
        cut,
    };
    let k = wide(form.rows) * wide(rule_form.m);
    run_exact(&lent, &mut cells[..k], &mut list[..list_room(k, cut)])
}
