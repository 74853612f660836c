// The whole check of a rule sheet, over its layout and names (`rulelayout`, `ruleclauses`,
// `ruleentries`), the text of its entries (`ruletexts`), the unguarded steps (`loops`) and the pass
// that tells most sheets that are in order (`rulepass`).
//
// Its contract cites `rules`' specs/Check.antt.
#![tactic(auto)]

ghost use Rattle.std.specs.Prelude.{◌≡◌, ◌≤◌, Err, MatchResult};
ghost use Rattle.laws.specs.Lowest.{lowest};
ghost use Rattle.sheet.specs.Refusals.{outcome_of};
ghost use Rattle.rulesheet.specs.Sheet.{entries_word};
ghost use Rattle.rulesheet.specs.Faults.{not_utf8};
ghost use Rattle.rulepass.specs.Pass.{Laid};
ghost use Rattle.rules.specs.Check.{rules_outcome};
ghost use Rattle.rules.specs.Accepted.{TrailerFine};

use reach::is_ascii;
use ruleentries::repeats;
use rulesheet::form::RuleForm;
use sheet::refusal::{Checked, Refusal, Refused};

// Line 13 of the table, of a sheet that has passed those up to 7.
fn check_texts(words: &[u32], text: &[u8], form: RuleForm) -> Result<(), Refused>
    requires { TrailerFine words.now text.now form × Laid words.now text.now form }
    ensures { MatchResult result (λ _. entries_word words.now ≤ lowest (not_utf8 words.now text.now) (entries_word words.now)) (λ r. outcome_of (Err r) ≡ rules_outcome words.now text.now) }
{
    let bad = ruletexts::first_not_utf8(words, text, form);
    Refusal::NotUtf8.line(form.m + form.c, bad, form.e)
}

// The lines after 7, of a sheet that has passed those up to it.
fn check_rest(words: &[u32], text: &[u8], form: RuleForm) -> Checked
    requires { TrailerFine words.now text.now form × Laid words.now text.now form }
    ensures { outcome_of result ≡ rules_outcome words.now text.now }
{
    let m = form.m;
    check_texts(words, text, form)?;
    let found = loops::check_unguarded(words, form);
    Refusal::UnguardedLoop.line(0, found.looped, m)?;
    Refusal::LongChain.line(0, found.long, m)?;
    Ok(m)
}

// The lines after 5, one after the other, each with its place.
fn check_lines(words: &[u32], text: &[u8], form: RuleForm) -> Checked
    requires { TrailerFine words.now text.now form }
    ensures { outcome_of result ≡ rules_outcome words.now text.now }
{
    let m = form.m;
    let c = form.c;
    let e = form.e;
    let schema = rulelayout::first_bad_schema(words, form);
    Refusal::RuleLayout.line(0, schema, m)?;
    let clause = ruleclauses::first_bad_clause(words, form);
    Refusal::RuleLayout.line(m, clause, c)?;
    let entry = ruleentries::first_bad_entry(words, form, text.len());
    Refusal::RuleLayout.line(m + c, entry, e)?;
    let again = repeats::first_repeated_entry(words, text, form);
    Refusal::RepeatedEntry.line(m + c, again, e)?;
    check_rest(words, text, form)
}

// Checks a rule sheet, whatever the words and the text: accepted with its number of schemas, or
// refused with the first refusal of 5, 6, 7, 13, 8 and 9 that applies and its place. Most sheets are
// in order and their text is ASCII, and one pass tells them; a place is sought only where it does not.
pub fn check_rules(words: &[u32], text: &[u8]) -> Checked
    ensures { outcome_of result ≡ rules_outcome words.now text.now }
{
    if !rulelayout::trailer_ok(words, text.len()) {
        return Err(Refused {
            refusal: Refusal::RuleTrailer,
            place: 0,
        });
    }
    let form = RuleForm::of(words);
    let order = rulepass::told(words, text, form);
    if !order.laid {
        return check_lines(words, text, form);
    }
    if !order.short {
        return check_rest(words, text, form);
    }
    if is_ascii(text) {
        return Ok(form.m);
    }
    check_texts(words, text, form)?;
    Ok(form.m)
}
