// What the clauses before a clause of the same schema tell it: to `items` how many elements they
// speak of, to `additionalProperties` which members they name.
#![tactic(auto)]

ghost use Rattle.std.specs.Prelude.{true, List, [], map, ◌≡◌, ℕ, ◌*◌, ◌≤◌, ◌<◌, length, take};
ghost use Rattle.sheet.specs.Record.{doc_of};
ghost use Rattle.rulesheet.specs.declared.code.Fields.TheVariants.{Members};
ghost use Rattle.rulesheet.specs.Sheet.{schema_at, clause_of};
ghost use Rattle.rulesheet.specs.Clauses.{members_in, clause_means, held, Bounded, Tested};
ghost use Rattle.rulesheet.specs.Faults.{parts_max};
ghost use Rattle.rulesheet.specs.Read.{RulesLaid};
ghost use Rattle.rulesheet.specs.declared.form.RuleForm.{RuleForm as Form};
ghost use Rattle.meaning.specs.Lists.{concat_map};
ghost use Rattle.meaning.specs.Rules.{Pair, names_of, prefix_of};
ghost use Rattle.looking.specs.Read.{RecordRead};
ghost use Rattle.clause.specs.Read.{RulesRead, ListRead, clause_in, before_in};
ghost use Rattle.plan.specs.Plan.{unnamed};
ghost use Rattle.told.specs.Read.{named_by, names_any, marks_named, NamesFrom, NamesOnly, by_marks, Started};

use few::{applies, telling_of, told_of};
use rulereader::entry_name;
use rulesheet::clause::{Clause, Entries};
use rulesheet::form::{RuleForm, clause_at, schema_at};
use sheet::record::{RecordForm, RecordRow, RuleRow, name_of};
use text::same_part;

// How many elements the clause itself speaks of: those of a `prefixItems`.
fn prefix_of(clause: Clause) -> u32
    ensures by_index { (rs us : List ℕ) → result ≡ length (prefix_of (clause_means rs us clause)) }
    ensures upper_bound { (form : Form) → Bounded form (held clause) → result ≤ form.e }
{
    match clause {
        Clause::PrefixItems(schemas) => schemas.count,
        _ => 0,
    }
}

// How many elements the first i clauses of the schema speak of.
fn prefix_before(rules: &[u32], form: RuleForm, s: RuleRow, first: u32, i: u32) -> u32
    requires { RulesLaid rules.now form × (s.0 < form.m) × (first ≡ (schema_at rules.now s.0).first) × (i ≤ (schema_at rules.now s.0).count) }
    ensures by_index { (us : List ℕ) → result ≡ length (concat_map prefix_of (before_in rules.now us s.0 i)) }
    ensures upper_bound { result ≤ parts_max * parts_max }
{
    let mut elements = 0;
    for k in 0..i {
        elements += prefix_of(telling_of(rules, form, first + k));
    }
    elements
}

// Whether the clause names members: a `properties` does.
fn has_names(clause: Clause) -> bool
    ensures { (rs us : List ℕ) → result ≡ names_any (clause_means rs us clause) }
{
    matches!(clause, Clause::Properties(_))
}

// From which of the first i clauses of the schema on they name members: i if none does.
fn names_from(rules: &[u32], form: RuleForm, s: RuleRow, first: u32, i: u32) -> u32
    requires { RulesLaid rules.now form × (s.0 < form.m) × (first ≡ (schema_at rules.now s.0).first) × (i ≤ (schema_at rules.now s.0).count) }
    ensures by_index { (us : List ℕ) → concat_map names_of (take result (before_in rules.now us s.0 i)) ≡ [] }
    ensures upper_bound { result ≤ i }
{
    for k in 0..i {
        if has_names(telling_of(rules, form, first + k)) {
            return k;
        }
    }
    i
}

// Whether clause k marks no member but those that it names.
fn marks_named(rules: &[u32], form: RuleForm, k: u32) -> bool
    requires { RulesLaid rules.now form × (k < form.c) }
    ensures { (us : List ℕ) → result ≡ marks_named (clause_of rules.now us k) }
{
    if applies(clause_at(rules, form, k)) {
        return has_names(telling_of(rules, form, k));
    }
    true
}

// Whether each of the first i clauses of the schema marks no member but those that it names.
fn only_names(rules: &[u32], form: RuleForm, s: RuleRow, first: u32, i: u32) -> bool
    requires { RulesLaid rules.now form × (s.0 < form.m) × (first ≡ (schema_at rules.now s.0).first) × (i ≤ (schema_at rules.now s.0).count) }
    ensures { result ≡ true → (us : List ℕ) → NamesOnly (before_in rules.now us s.0 i) }
{
    for k in 0..i {
        if !marks_named(rules, form, first + k) {
            return false;
        }
    }
    true
}

// Whether the last of the first i clauses of the schema names members.
fn last_names(rules: &[u32], form: RuleForm, s: RuleRow, first: u32, i: u32) -> bool
    requires { RulesLaid rules.now form × (s.0 < form.m) × (first ≡ (schema_at rules.now s.0).first) × (i ≤ (schema_at rules.now s.0).count) }
{
    i > 0 && has_names(telling_of(rules, form, first + (i - 1)))
}

// Said where the marks tell which members are named.
pub const BY_MARKS: u32 = 0xffff_ffff;

// What the first i clauses of the schema tell an `additionalProperties`: from which of them on they name
// members, or that the marks tell it. The marks are asked only where the last of them names some.
fn names_told(rules: &[u32], form: RuleForm, s: RuleRow, first: u32, i: u32) -> u32
    requires { RulesLaid rules.now form × (s.0 < form.m) × (first ≡ (schema_at rules.now s.0).first) × (i ≤ (schema_at rules.now s.0).count) }
    ensures by_index { (us : List ℕ) → (result ≡ by_marks → ⊥) → NamesFrom (before_in rules.now us s.0 i) result }
    ensures by_index_2 { (us : List ℕ) → result ≡ by_marks → NamesOnly (before_in rules.now us s.0 i) }
{
    if last_names(rules, form, s, first, i) && only_names(rules, form, s, first, i) {
        return BY_MARKS;
    }
    names_from(rules, form, s, first, i)
}

// What the first i clauses of the schema tell the clause after them: `items` how many elements they
// speak of, `additionalProperties` from which of them on they name members, or that the marks tell it,
// any other nothing.
fn start_in(rules: &[u32], form: RuleForm, s: RuleRow, first: u32, i: u32, clause: Clause) -> u32
    requires { RulesLaid rules.now form × (s.0 < form.m) × (first ≡ (schema_at rules.now s.0).first) × (i ≤ (schema_at rules.now s.0).count) }
    ensures { (us : List ℕ) → Started (before_in rules.now us s.0 i) (clause_means rules.now us clause) result }
{
    match clause {
        Clause::Items(_) => prefix_before(rules, form, s, first, i),
        Clause::AdditionalProperties(_) => names_told(rules, form, s, first, i),
        _ => 0,
    }
}

// What they tell clause i of the schema.
pub fn start_of<'a>(rules: &[u32], rule_text: &'a [u8], form: RuleForm, s: RuleRow, i: u32) -> u32
    requires { RulesRead rules.now rule_text.now form × (s.0 < form.m) × (i < (schema_at rules.now s.0).count) }
    ensures { Started (before_in rules.now rule_text.now s.0 i) (clause_in rules.now rule_text.now s.0 i) result }
{
    let first = schema_at(rules, form, s).first;
    let clause = told_of(rules, form, first + i);
    start_in(rules, form, s, first, i, clause)
}

// Whether an entry of the list names the row. The entry at `hint` is tried first: members mostly stand
// in the order of the rules.
fn named_in<'a>(
    record: &[u32],
    text: &'a [u8],
    form: RecordForm,
    rules: &[u32],
    rule_text: &'a [u8],
    rule_form: RuleForm,
    list: Entries,
    row: RecordRow,
    hint: u32,
) -> bool
    requires record_read { RecordRead «record».now text.now form × (row.0 < form.rows) }
    requires rules_read { RulesRead rules.now rule_text.now rule_form × ListRead rules.now rule_form Members list }
    ensures { result ≡ named_by (doc_of «record».now text.now) (map (λ m. m.0) (members_in rules.now rule_text.now list)) row.0 }
{
    let own = name_of(record, form, row);
    let many = list.count;
    let names = |i: u32| same_part(text, own, rule_text, entry_name(rules, rule_form, list, i));
    if hint < many && names(hint) {
        return true;
    }
    for i in 0..many {
        if names(i) {
            return true;
        }
    }
    false
}

// Whether the clause names the row: a `properties` may.
fn clause_names<'a>(
    record: &[u32],
    text: &'a [u8],
    form: RecordForm,
    rules: &[u32],
    rule_text: &'a [u8],
    rule_form: RuleForm,
    clause: Clause,
    row: RecordRow,
    hint: u32,
) -> bool
    requires record_read { RecordRead «record».now text.now form × (row.0 < form.rows) }
    requires rules_read { RulesRead rules.now rule_text.now rule_form × Tested rules.now rule_form clause }
    ensures { result ≡ named_by (doc_of «record».now text.now) (names_of (clause_means rules.now rule_text.now clause)) row.0 }
{
    match clause {
        Clause::Properties(members) => named_in(
            record, text, form, rules, rule_text, rule_form, members, row, hint,
        ),
        _ => false,
    }
}

// Whether no `properties` among the first i clauses of the schema names the row, where those before
// `from` name nothing. In each the entry at `hint` is tried first.
pub fn unnamed_in<'a>(
    record: &[u32],
    text: &'a [u8],
    form: RecordForm,
    rules: &[u32],
    rule_text: &'a [u8],
    rule_form: RuleForm,
    s: RuleRow,
    first: u32,
    i: u32,
    from: u32,
    row: RecordRow,
    hint: u32,
) -> bool
    requires record_read { RecordRead «record».now text.now form × (row.0 < form.rows) }
    requires rules_read { RulesRead rules.now rule_text.now rule_form × (s.0 < rule_form.m) × (first ≡ (schema_at rules.now s.0).first) × (i ≤ (schema_at rules.now s.0).count) }
    requires none_named_before_from { (from ≤ i) × (concat_map names_of (take from (before_in rules.now rule_text.now s.0 i)) ≡ []) }
    ensures { (p : Pair) → result ≡ unnamed (doc_of «record».now text.now) p (before_in rules.now rule_text.now s.0 i) row.0 }
{
    for k in from..i {
        let clause = telling_of(rules, rule_form, first + k);
        if clause_names(
            record, text, form, rules, rule_text, rule_form, clause, row, hint,
        ) {
            return false;
        }
    }
    true
}
