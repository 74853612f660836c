// Whether a sheet is in order in all that 2, 3 and 4 ask, in one pass over the rows: what is not goes
// on to the passes that find the refusal and its place. Contracts cite `specs/Order.antt`.
//
// Each row tells its children their level, so a row that has none when its turn comes is no one's
// child, and no row's order is asked twice.
ghost use Rattle.std.specs.Prelude.{true, ◌≡◌, ℕ, ◌+◌, ◌≤◌, ◌<◌, length, get_or};
ghost use Rattle.text.specs.Part.{fits};
ghost use Rattle.sheet.specs.declared.kind.RowKind.TheVariants.{Object};
ghost use Rattle.sheet.specs.Record.{text_word, row_at};
ghost use Rattle.sheet.specs.Accepted.{Formed};
ghost use Rattle.recordcheck.specs.Order.{Levelled, child_ok, Holding, Held, Apart, Ordered};

use recordfields::{fields_ok, label_ok, root_ok};
use sheet::kind::RowKind;
use sheet::record::{Children, RecordForm, Row, wide};
use sheet::record_rows::{RecordRows, RecordSheet};

// Up to so many names are told apart by their signs first.
const FEW: u32 = 16;

// The rows whose levels stand in the smaller table.
const SMALL: usize = 64;

// The deepest level that may have children.
const LEVEL_LAST: u8 = 31;

// Children of this owner, which is of this kind, at this level.
#[derive(Clone, Copy)]
struct Brood {
    kind: RowKind,
    owner: u32,
    level: u8,
    children: Children,
}

// Whether row c is a child of row j, which is of this kind.
fn child_ok(rows: RecordRows<'_>, kind: RowKind, j: u32, c: u32) -> bool
    requires { c < rows.form.rows }
    ensures { result ≡ child_ok rows.entry.words.now kind j c }
{
    let row = rows.row(c);
    if row.owner != j {
        return false;
    }
    label_ok(kind, rows.size, row.label)
}

// Whether all of the brood are children of their owner; each is told its level.
fn children_ok(rows: RecordRows<'_>, brood: Brood, levels: &mut [u8]) -> bool
    requires { Holding rows.words.now rows.form brood.kind brood.owner brood.level brood.children.first brood.children.count × Levelled rows.words.now rows.form.rows levels.old }
    ensures { result ≡ true → Held rows.entry.words.now brood.kind brood.owner brood.children.first brood.children.count × Levelled rows.entry.words.now rows.entry.form.rows levels.new }
{
    for i in 0..brood.children.count {
        let c = brood.children.first + i;
        if !child_ok(rows, brood.kind, brood.owner, c) {
            return false;
        }
        levels[wide(c)] = brood.level;
    }
    true
}

// Whether no two of these children share a name.
fn apart(sheet: RecordSheet<'_>, children: Children) -> bool
    requires within { children.first + children.count ≤ sheet.rows.form.rows }
    requires by_index { (i : ℕ) → i < children.count → fits (text_word sheet.rows.words.now) (row_at sheet.rows.words.now (children.first + i)).label ≡ true }
    ensures { result ≡ true → Apart sheet.entry.rows.words.now sheet.entry.text.now children.first children.count }
{
    let labels = sheet.rows.labels(children);
    labels.count <= namesakes::first_repeated(sheet.rows.words, sheet.text, labels)
}

// Whether all of the brood, few members of an object, are its members, and no two share a name, which
// their signs mostly tell as they are met. Each is told its level. In two passes (`children_ok`, then
// the signs) a passage's check took a quarter more.
fn few_ok(sheet: RecordSheet<'_>, brood: Brood, levels: &mut [u8]) -> bool
    requires holding { Holding sheet.rows.words.now sheet.rows.form brood.kind brood.owner brood.level brood.children.first brood.children.count × (brood.kind ≡ Object) }
    requires levelled { Levelled sheet.rows.words.now sheet.rows.form.rows levels.old }
    ensures held { result ≡ true → Held sheet.entry.rows.words.now brood.kind brood.owner brood.children.first brood.children.count }
    ensures apart { result ≡ true → Apart sheet.entry.rows.words.now sheet.entry.text.now brood.children.first brood.children.count }
    ensures levelled { result ≡ true → Levelled sheet.entry.rows.words.now sheet.entry.rows.form.rows levels.new }
{
    let mut seen = [false; 128];
    for i in 0..brood.children.count {
        let c = brood.children.first + i;
        if !child_ok(sheet.rows, brood.kind, brood.owner, c) {
            return false;
        }
        let label = sheet.rows.row(c).label;
        let sign = text::print::sign(text::bytes_of(sheet.text, label)) as usize;
        if seen[sign] {
            return children_ok(sheet.rows, brood, levels) && apart(sheet, brood.children);
        }
        seen[sign] = true;
        levels[wide(c)] = brood.level;
    }
    true
}

// Whether row j is in order, and tells its children their level.
fn row_ok(sheet: RecordSheet<'_>, levels: &mut [u8], j: u32) -> bool
    requires { (j < sheet.rows.form.rows) × Levelled sheet.rows.words.now sheet.rows.form.rows levels.old }
    ensures { result ≡ true → Ordered sheet.entry.rows.words.now sheet.entry.text.now j × Levelled sheet.entry.rows.words.now sheet.entry.rows.form.rows levels.new }
{
    let level = levels[wide(j)];
    if level == 0 {
        return false;
    }
    let row = sheet.rows.row(j);
    if !fields_ok(sheet.rows.size, sheet.rows.form.rows, j, row) {
        return false;
    }
    let Row {
        kind,
        first,
        count,
        ..
    } = row;
    let kind = RowKind::of(kind);
    if !kind.holds_children() || count == 0 {
        return true;
    }
    if LEVEL_LAST < level {
        return false;
    }
    let children = Children { first, count };
    let brood = Brood {
        kind,
        owner: j,
        level: level + 1,
        children,
    };
    if kind.is_object() && count <= FEW {
        return few_ok(sheet, brood, levels);
    }
    children_ok(sheet.rows, brood, levels) && (!kind.is_object() || apart(sheet, children))
}

// Whether all rows are, with a table that is clear.
fn rows_ok(sheet: RecordSheet<'_>, levels: &mut [u8]) -> bool
    requires room { sheet.rows.form.rows ≤ length levels.old }
    requires by_index { (p : ℕ) → get_or levels.old p 0 ≡ 0 }
    ensures { result ≡ true → (j : ℕ) → j < sheet.entry.rows.form.rows → Ordered sheet.entry.rows.words.now sheet.entry.text.now j }
{
    if !root_ok(sheet.rows.row(0)) {
        return false;
    }
    levels[0] = 1;
    for j in 0..sheet.rows.form.rows {
        if !row_ok(sheet, levels, j) {
            return false;
        }
    }
    true
}

// The same, with a table of so many levels.
fn in_table<const N: usize>(sheet: RecordSheet<'_>) -> bool
    requires { (sheet.rows.form.rows ≤ N) × (N < 65_536) }
    ensures { result ≡ true → (j : ℕ) → j < sheet.entry.rows.form.rows → Ordered sheet.entry.rows.words.now sheet.entry.text.now j }
{
    let mut levels = [0u8; N];
    rows_ok(sheet, &mut levels)
}

// Whether all rows are in order: true only where they are, and then no more is to be asked but
// whether the text is UTF-8.
pub(crate) fn in_order(words: &[u32], text: &[u8], form: RecordForm) -> bool
    requires { Formed words.now form × (length text.now ≡ text_word words.now) }
    ensures { result ≡ true → (j : ℕ) → j < form.rows → Ordered words.now text.now j }
{
    let sheet = RecordSheet::new(words, text, form);
    if wide(form.rows) <= SMALL {
        in_table::<SMALL>(sheet)
    } else {
        in_table::<{ RecordForm::ROWS_MAX }>(sheet)
    }
}
