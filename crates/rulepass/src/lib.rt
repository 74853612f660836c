// One pass over a rule sheet that tells most sheets that are in order, by the same table of codes
// (`rulecodes`) as the passes that find a fault's place. Where it says no, or that it cannot tell,
// those are asked.
//
// Its contracts cite `specs/Pass.antt`.
#![tactic(auto)]

ghost use Rattle.std.specs.Prelude.{true, false, ◌≡◌, ◌+◌, ◌≤◌, length, IfSome};
ghost use Rattle.rulesheet.specs.Sheet.{text_word, schema_at};
ghost use Rattle.rulesheet.specs.Codes.{shape_of};
ghost use Rattle.rulesheet.specs.Faults.{is_list, is_named, list_start};
ghost use Rattle.rulesheet.specs.Read.{RulesFormed};
ghost use Rattle.rulepass.specs.Pass.{listed_by, ClausePassed, SchemaPassed, Told};

use ruleclauses::fields_ok;
use rulecodes::shape_of;
use rulelists::{entries_fine, named_fine};
use rulesheet::clause::Entries;
use rulesheet::code::Shape;
use rulesheet::form::{ClauseRow, RuleForm, SchemaRow, clause_at, schema_at};
use rulesteps::{MANY, after_list, after_one};
use sheet::record::{RuleRow, wide};

// How far a pass has come: where the next list starts, and how many clauses had steps.
#[derive(Clone, Copy)]
pub struct Pass {
    pub start: u32,
    pub steps: u32,
}

// What is told of a sheet. `laid`: none of 6 and 7 applies. `short`: none of 8 and 9.
#[derive(Clone, Copy)]
pub struct Order {
    pub laid: bool,
    pub short: bool,
}

impl Order {
    // Neither is told.
    const NEITHER: Order = Order {
        laid: false,
        short: false,
    };
}

// Whether the entries of a list clause start where the next list does, end within the sheet's, and
// are as many as its shape asks.
fn listed(form: RuleForm, clause: ClauseRow, shape: Shape, start: u32) -> bool
    ensures { result ≡ listed_by form.e shape start clause }
{
    let first = clause.first;
    let count = clause.count;
    (first == start)
        & ((wide(first) + wide(count) <= wide(form.e))
            & ((shape.least <= count) & (count <= shape.most)))
}

// Passes a list clause whose entries have names and which has no steps: most lists are such, and stand
// apart from the others, which are told by their fields.
fn pass_named(
    words: &[u32],
    text: &[u8],
    form: RuleForm,
    s: RuleRow,
    clause: ClauseRow,
    shape: Shape,
    from: Pass,
) -> Option<Pass>
    requires { RulesFormed words.now form × (length text.now ≡ text_word words.now) × (shape ≡ shape_of clause.code) × (is_list shape.fields ≡ true) × (is_named shape.fields ≡ true) × (shape.unguarded ≡ false) }
    ensures { IfSome result (ClausePassed words.now text.now s.0 clause from.start from.steps) }
{
    if !listed(form, clause, shape, from.start) {
        return None;
    }
    let list = Entries {
        first: clause.first,
        count: clause.count,
    };
    if !named_fine(words, text, form, shape.fields, list) {
        return None;
    }
    Some(Pass {
        start: list.first + list.count,
        ..from
    })
}

// Passes a list clause of schema s.
fn pass_list(
    words: &[u32],
    text: &[u8],
    form: RuleForm,
    s: RuleRow,
    clause: ClauseRow,
    shape: Shape,
    from: Pass,
) -> Option<Pass>
    requires { RulesFormed words.now form × (length text.now ≡ text_word words.now) × (shape ≡ shape_of clause.code) × (is_list shape.fields ≡ true) }
    ensures { IfSome result (ClausePassed words.now text.now s.0 clause from.start from.steps) }
{
    if !listed(form, clause, shape, from.start) {
        return None;
    }
    let list = Entries {
        first: clause.first,
        count: clause.count,
    };
    if !entries_fine(words, text, form, shape.fields, list) {
        return None;
    }
    Some(Pass {
        start: list.first + list.count,
        steps: after_list(words, form, s, shape, list, from.steps),
    })
}

// Passes a clause of schema s, but for the rise of its code.
fn pass_clause(
    words: &[u32],
    text: &[u8],
    form: RuleForm,
    s: RuleRow,
    clause: ClauseRow,
    from: Pass,
) -> Option<Pass>
    requires { RulesFormed words.now form × (length text.now ≡ text_word words.now) }
    ensures { IfSome result (ClausePassed words.now text.now s.0 clause from.start from.steps) }
{
    let shape = shape_of(clause.code);
    if !shape.fields.is_list() {
        if !fields_ok(shape.fields, form.m, clause.first, clause.count) {
            return None;
        }
        return Some(Pass {
            steps: after_one(s, shape.unguarded, clause.first, from.steps),
            ..from
        });
    }
    if shape.fields.is_named() & !shape.unguarded {
        return pass_named(words, text, form, s, clause, shape, from);
    }
    pass_list(words, text, form, s, clause, shape, from)
}

// Passes the clauses of schema s. No code is 0, so the first one's must rise above 0 too.
fn pass_schema(
    words: &[u32],
    text: &[u8],
    form: RuleForm,
    s: RuleRow,
    row: SchemaRow,
    from: Pass,
) -> Option<Pass>
    requires rules_formed { RulesFormed words.now form × (length text.now ≡ text_word words.now) }
    requires schema_read { (row ≡ schema_at words.now s.0) × (row.first + row.count ≤ form.c) × (from.start ≡ list_start words.now row.first) }
    ensures { IfSome result (SchemaPassed words.now text.now s.0 from.steps) }
{
    let mut pass = from;
    let mut last = 0;
    for k in row.first..row.first + row.count {
        let clause = clause_at(words, form, k);
        let code = clause.code;
        if code <= last {
            return None;
        }
        pass = pass_clause(words, text, form, s, clause, pass)?;
        last = code;
    }
    Some(pass)
}

// What one pass over the schemas, their clauses and the entries tells.
pub fn told(words: &[u32], text: &[u8], form: RuleForm) -> Order
    requires { RulesFormed words.now form × (length text.now ≡ text_word words.now) }
    ensures { Told words.now text.now form result }
{
    let mut pass = Pass { start: 0, steps: 0 };
    let mut k = 0;
    for s in 0..form.m {
        let row = schema_at(words, form, RuleRow(s));
        if !((row.first == k) & (wide(row.first) + wide(row.count) <= wide(form.c))) {
            return Order::NEITHER;
        }
        let Some(next) = pass_schema(words, text, form, RuleRow(s), row, pass) else {
            return Order::NEITHER;
        };
        pass = next;
        k = row.first + row.count;
    }
    let laid = (k == form.c) & (pass.start == form.e);
    Order {
        laid,
        short: laid & (pass.steps < MANY),
    }
}
