// The schemas, clauses and entries of a rule sheet, their words by name.
ghost use Rattle.std.specs.Prelude.{true, ◌≡◌, ◌<◌};
ghost use Rattle.rulesheet.specs.Sheet.{form_of, schema_at, clause_at, entry_at};
ghost use Rattle.rulesheet.specs.Codes.{entry_range};
ghost use Rattle.rulesheet.specs.Faults.{words_ok};
ghost use Rattle.rulesheet.specs.Read.{RulesFormed};

use sheet::record::{RuleRow, wide};
use text::Range;

// Where schemas, clauses and entries start among the words, and how many there are.
#[derive(Clone, Copy)]
pub struct RuleForm {
    pub schemas: usize,
    pub clauses: usize,
    pub entries: usize,
    pub m: u32,
    pub c: u32,
    pub e: u32,
}

// A schema's clauses: `count` of them from `first` on.
#[derive(Clone, Copy)]
pub struct SchemaRow {
    pub first: u32,
    pub count: u32,
}

#[derive(Clone, Copy)]
pub struct ClauseRow {
    pub code: u32,
    pub first: u32,
    pub count: u32,
}

#[derive(Clone, Copy)]
pub struct EntryRow {
    pub first: u32,
    pub second: u32,
    pub third: u32,
}

impl RuleForm {
    pub const KIND: u32 = 2;

    pub const TRAILER_WORDS: usize = 6;

    pub const SCHEMA_WORDS: usize = 2;

    pub const CLAUSE_WORDS: usize = 3;

    pub const ENTRY_WORDS: usize = 3;

    pub const SCHEMAS_MAX: usize = 1_024;

    // The most clauses, and the most entries.
    pub const PARTS_MAX: usize = 4_096;

    // The form of words whose trailer is in order.
    pub fn of(words: &[u32]) -> RuleForm
        requires { words_ok words.now ≡ true }
        ensures { result ≡ form_of words.now }
    {
        let size = words.len();
        let back = wide(words[size - 3]);
        let e = words[size - 4];
        let c = words[size - 5];
        let entries = size - RuleForm::TRAILER_WORDS - RuleForm::ENTRY_WORDS * wide(e);
        RuleForm {
            schemas: size - RuleForm::TRAILER_WORDS - back,
            clauses: entries - RuleForm::CLAUSE_WORDS * wide(c),
            entries,
            m: words[size - 6],
            c,
            e,
        }
    }
}

impl EntryRow {
    // The name of an entry that has one, as a range of the text.
    pub fn name(self) -> Range
        ensures { result ≡ entry_range self }
    {
        Range {
            start: self.first,
            length: self.second,
        }
    }
}

// The words of a schema. The readers take words and form apart, as docs/PROMISES.md names them and
// the crates above call them.
pub fn schema_at(words: &[u32], form: RuleForm, schema: RuleRow) -> SchemaRow
    requires { RulesFormed words.now form × (schema.0 < form.m) }
    ensures { result ≡ schema_at words.now schema.0 }
{
    let at = form.schemas + RuleForm::SCHEMA_WORDS * wide(schema.0);
    SchemaRow {
        first: words[at],
        count: words[at + 1],
    }
}

// The words of clause k.
pub fn clause_at(words: &[u32], form: RuleForm, k: u32) -> ClauseRow
    requires { RulesFormed words.now form × (k < form.c) }
    ensures { result ≡ clause_at words.now k }
{
    let at = form.clauses + RuleForm::CLAUSE_WORDS * wide(k);
    ClauseRow {
        code: words[at],
        first: words[at + 1],
        count: words[at + 2],
    }
}

// The words of entry x.
pub fn entry_at(words: &[u32], form: RuleForm, x: u32) -> EntryRow
    requires { RulesFormed words.now form × (x < form.e) }
    ensures { result ≡ entry_at words.now x }
{
    let at = form.entries + RuleForm::ENTRY_WORDS * wide(x);
    EntryRow {
        first: words[at],
        second: words[at + 1],
        third: words[at + 2],
    }
}
