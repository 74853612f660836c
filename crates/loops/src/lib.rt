// Refusal 8: the lowest schema on an unguarded loop. Then 8 and 9 together.
//
// Its contracts cite `Graph`, `Places` and `Worklist` of `unguarded`.
#![tactic(auto)]

ghost use Rattle.std.specs.Prelude.{◌∷◌, [], ◌≡◌, ◌<◌};
ghost use Rattle.rulesheet.specs.Sheet.{schemas_word, clauses_word, targets_of, next_of};
ghost use Rattle.rulesheet.specs.Faults.{schemas_max};
ghost use Rattle.rulesheet.specs.Read.{RulesLaid};
ghost use Rattle.unguarded.specs.Graph.{on_loop};
ghost use Rattle.unguarded.specs.Places.{loop_place, Placed};
ghost use Rattle.unguarded.specs.Worklist.{mark_count};

use chains::long_place;
use rulereader::steps::{step_at, steps_of};
use rulesheet::form::{RuleForm, schema_at};
use sheet::record::{RuleRow, wide};
use unguarded::Unguarded;

// A worklist: a mark for each schema that was visited, and the first `tail` of the queue are those
// schemas, in the order in which they were. `Tidied` says so; it is no ghost field, since it holds at
// which place of the queue each stands, and a ghost field must be a proposition.
#[derive(Drop)]
struct Worklist {
    seen: [bool; RuleForm::SCHEMAS_MAX],
    queue: [u32; RuleForm::SCHEMAS_MAX],
    tail: usize,
}

impl Worklist {
    ghost use Rattle.loops.specs.Visits.{Tidied, Visits};

    // One in which nothing was visited.
    fn new() -> Worklist
        ensures { Tidied result × (mark_count result.seen ≡ 0) × (result.tail ≡ 0) }
    {
        Worklist {
            seen: [false; RuleForm::SCHEMAS_MAX],
            queue: [0; RuleForm::SCHEMAS_MAX],
            tail: 0,
        }
    }

    // Marks schema t and puts it at the queue's end, if it has no mark yet.
    fn visit(&mut self, t: RuleRow)
        requires { Tidied self.old × (t.0 < schemas_max) }
        ensures { Visits (t.0 ∷ []) self.old self.new }
    {
        let at = wide(t.0);
        if !self.seen[at] {
            self.seen[at] = true;
            self.queue[self.tail] = t.0;
            self.tail += 1;
        }
    }

    // Visits all that clause k reaches.
    fn visit_clause(&mut self, words: &[u32], form: RuleForm, k: u32)
        requires { RulesLaid words.now form × (k < clauses_word words.now) × Tidied self.old }
        ensures { Visits (targets_of words.now k) self.old self.new }
    {
        for i in 0..steps_of(words, form, k) {
            self.visit(step_at(words, form, k, i));
        }
    }

    // Visits all that schema s reaches in one step.
    fn visit_next(&mut self, words: &[u32], form: RuleForm, s: RuleRow)
        requires { RulesLaid words.now form × (s.0 < schemas_word words.now) × Tidied self.old }
        ensures { Visits (next_of words.now s.0) self.old self.new }
    {
        let row = schema_at(words, form, s);
        for j in 0..row.count {
            self.visit_clause(words, form, row.first + j);
        }
    }
}

// Whether schema s is on a loop: each schema that s reaches is visited once, and s is on a loop if
// it was among them. The queue grows while it is gone through, so its end is asked for at each turn.
fn on_loop(words: &[u32], form: RuleForm, s: RuleRow) -> bool
    requires { RulesLaid words.now form × (s.0 < schemas_word words.now) }
    ensures { result ≡ on_loop (schemas_word words.now) (next_of words.now) s.0 }
{
    let mut list = Worklist::new();
    list.visit_next(words, form, s);
    let mut head = 0;
    while head < list.tail {
        let u = list.queue[head];
        list.visit_next(words, form, RuleRow(u));
        head += 1;
    }
    let at = wide(s.0);
    list.seen[at]
}

// The lowest schema on a loop, or the number of schemas, as `lowest` in `loop_place` has it.
fn first_loop(words: &[u32], form: RuleForm) -> u32
    requires { RulesLaid words.now form }
    ensures { result ≡ loop_place (schemas_word words.now) (next_of words.now) }
{
    for s in 0..form.m {
        if on_loop(words, form, RuleRow(s)) {
            return s;
        }
    }
    form.m
}

// The places of refusals 8 and 9. A loop has chains of every length, so loops are sought only where
// there is a chain of 33 schemas.
pub fn check_unguarded(words: &[u32], form: RuleForm) -> Unguarded
    requires { RulesLaid words.now form }
    ensures { Placed words.now result }
{
    let m = form.m;
    let long = long_place(words, form);
    if long == m {
        return Unguarded { looped: m, long: m };
    }
    Unguarded {
        looped: first_loop(words, form),
        long,
    }
}
