// What is lent to those that judge a pair: the two sheets with their texts and forms, and whether judging
// is cut. It is made once a call (`run::run`), so that no trailer is read while records are judged, and
// lies behind one address from there on. What is read of it here is a schema's clauses and whether judging
// goes on after a failure, and no row. The tests of a pair, the steps of its clauses and its cells are in
// `trying`, `stepping` and `marking`. No pair is open in any of them, so what these functions keep costs
// no stack.
//
// The contracts cite `specs/Lent.antt` and `specs/Reads.antt`.
#![tactic(auto)]

ghost use Rattle.std.specs.Prelude.{◌≡◌, cond, ◌+◌, ◌≤◌, ◌<◌};
ghost use Rattle.std.proofs.Props.{props};
ghost use Rattle.rulesheet.specs.Sheet.{schema_at};
ghost use Rattle.areas.specs.Cells.{pair_is};
ghost use Rattle.lent.specs.Lent.{Sheets, way_by, goes_on};

use rulesheet::form::{ClauseRow, RuleForm, clause_at, schema_at};
use sheet::record::{Pair, RecordForm, RuleRow, wide};

// A record and its text, rules and theirs, where the parts of both lie, and whether judging is cut. Both
// sheets were checked: they are laid out as their readers ask.
#[derive(Clone, Copy)]
pub struct Lent<'a> {
    pub record: &'a [u32],
    pub text: &'a [u8],
    pub form: RecordForm,
    pub rules: &'a [u32],
    pub rule_text: &'a [u8],
    pub rule_form: RuleForm,
    pub cut: bool,
    pub ghost sheets: { Sheets «record».now text.now rules.now rule_text.now form rule_form } by { Prim.hlevel props },
}

impl<'a> Lent<'a> {
    ghost use Rattle.lent.specs.Reads.{lent_case, row_of, ReadsClause};

    // How many schemas there are.
    pub fn schemas(&self) -> usize
        ensures { result ≡ (lent_case self.now).m }
    {
        wide(self.rule_form.m)
    }

    // How many clauses the schema has.
    pub fn clauses_of(&self, s: RuleRow) -> u32
        requires { s.0 < (lent_case self.now).m }
        ensures { result ≡ (schema_at self.now.rules.now s.0).count }
    {
        schema_at(self.rules, self.rule_form, s).count
    }

    // The words of clause i of the pair's schema.
    pub fn clause_row(&self, p: Pair, i: u32) -> ClauseRow
        requires { ReadsClause self.now (pair_is p) i }
        ensures { result ≡ row_of self.now (pair_is p) i }
    {
        let schema = schema_at(self.rules, self.rule_form, p.rule);
        clause_at(self.rules, self.rule_form, schema.first + i)
    }
}

// ---- after a failure

// Whether judging goes on after what is `ok` or not: always in whole, and else where it is. Here alone
// it is asked whether judging is cut.
pub fn goes_on(cut: bool, ok: bool) -> bool
    ensures { result ≡ goes_on (way_by cut) ok }
{
    ok || !cut
}

// The clause after clause i of `many`, where those up to it hold or not; none if judging stops.
pub fn next_clause(cut: bool, many: u32, i: u32, ok: bool) -> u32
    requires { i < many }
    ensures next_or_end { result ≡ cond (goes_on (way_by cut) ok) (i + 1) many }
    ensures onward_within_many { (i < result) × (result ≤ many) }
{
    if goes_on(cut, ok) { i + 1 } else { many }
}
