// The check of a sheet, be it a record sheet or a rule sheet: the last word says which.
//
// Its contract cites `specs/LastWord.antt`.
#![tactic(auto)]

ghost use Rattle.std.specs.Prelude.{◌≡◌};
ghost use Rattle.sheetcheck.specs.LastWord.{outcome_by_kind, check_outcome};

use recordcheck::check_record;
use rulecheck::check_rules;
use rulesheet::form::RuleForm;
use sheet::record::RecordForm;
use sheet::refusal::Checked;

// The number of the refusal of a sheet of no known kind; its place is 0.
pub const UNKNOWN_KIND: u32 = 12;

// Checks a sheet, whatever the words and the text: accepted with its number of rows (of rules, the
// schemas), or refused by the check of its kind; or none, where no kind is known. No other call has
// that case.
pub fn check(words: &[u32], text: &[u8]) -> Option<Checked>
    ensures { outcome_by_kind result ≡ check_outcome words.now text.now }
{
    let n = words.len();
    if n == 0 {
        return None;
    }
    let kind = words[n - 1];
    if kind == RecordForm::KIND {
        return Some(check_record(words, text));
    }
    if kind == RuleForm::KIND {
        return Some(check_rules(words, text));
    }
    None
}
