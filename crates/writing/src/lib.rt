// The second pass over a JSON text that is accepted: every row's words and every byte of the text are
// written at their places (`specs/Reading.antt`, which contracts cite).
#![tactic(auto)]

ghost use Rattle.std.specs.Prelude.{[], ◌∷◌, ◌≡◌, ◌+◌, ◌-◌, ◌*◌, ◌≤◌, ◌<◌, length, get_or, drop, set};
ghost use Rattle.sheet.specs.Kinds.{kind_number};
ghost use Rattle.sheet.specs.Record.{row_words};
ghost use Rattle.placing.specs.Desk.{row_put, row_shut, owner_at};
ghost use Rattle.writing.specs.Reading.{is_blank, blanks_of, Reading, Going, ReadyAt, SameAreas, desk_at, Writable, Stands};

use figures::{byte_at, read_number};
use setting::{clear_rows, finish, owner_at, put_row, shut_row};
use sheet::kind::RowKind;
use sheet::record::Row;
use strings::copy_string;
use text::Range;

// A place of the text, how many brackets are open there, and the label that waits for its value.
#[derive(Clone, Copy)]
struct Spot {
    at: usize,
    level: usize,
    label: Range,
}

// What is written: the counters of rows and of bytes, level by level, the words of n rows, and the
// text.
#[derive(Drop)]
struct Areas<'a> {
    rows: &'a mut [u32],
    bytes: &'a mut [u32],
    words: &'a mut [u32],
    text: &'a mut [u8],
    n: usize,
}

const NO_LABEL: Range = Range {
    start: 0,
    length: 0,
};

// Whether the byte is white space.
fn blank(byte: u8) -> bool
    ensures { result ≡ is_blank byte }
{
    matches!(byte, b' ' | b'\n' | b'\r' | b'\t')
}

// The first place from `start` on at which there is no white space.
fn skip(json: &[u8], start: usize) -> usize
    requires { start ≤ 65_536 }
    ensures { result ≡ start + blanks_of (drop start json.now) }
{
    for i in start..json.len() {
        if !blank(json[i]) {
            return i;
        }
    }
    start.max(json.len())
}

impl<'a> Areas<'a> {
    // The owner of a row of level k.
    fn owner(&self, k: usize) -> u32
        requires { k < length self.now.rows.now }
        ensures { result ≡ owner_at k self.now.rows.now }
    {
        owner_at(self.rows, k)
    }

    // The next row of the spot's level, for the value that ends at `to`.
    fn write_row(&mut self, spot: Spot, to: usize, kind: RowKind, first: u32, count: u32) -> Spot
        requires { (spot.level < length self.old.rows.now) × (row_words * self.old.n ≤ length self.old.words.now) × (get_or self.old.rows.now spot.level 0 < 1_000_000) }
        ensures counted { self.new.rows.now ≡ set self.old.rows.now spot.level (get_or self.old.rows.now spot.level 0 + 1) }
        ensures written { self.new.words.now ≡ row_put self.old.n self.old.words.now (get_or self.old.rows.now spot.level 0) (kind_number kind ∷ first ∷ count ∷ owner_at spot.level self.old.rows.now ∷ spot.label.start ∷ spot.label.length ∷ []) }
        ensures others { (self.new.bytes.now ≡ self.old.bytes.now) × (self.new.text.now ≡ self.old.text.now) }
        ensures same { SameAreas self.old self.new }
        ensures moved { (result.at ≡ to) × (result.level ≡ spot.level) × (result.label.start ≡ 0) × (result.label.length ≡ 0) }
    {
        let level = spot.level;
        let r = self.rows[level];
        let row = Row {
            kind: kind.number(),
            first,
            count,
            owner: self.owner(level),
            label: spot.label,
        };
        put_row(self.words, self.n, r as usize, row);
        self.rows[level] = r + 1;
        Spot {
            at: to,
            level,
            label: NO_LABEL,
        }
    }

    // The row of the container that is opened at the spot.
    fn open_row(&mut self, spot: Spot, kind: RowKind) -> Spot
        requires { (spot.level + 1 < length self.old.rows.now) × (row_words * self.old.n ≤ length self.old.words.now) × (get_or self.old.rows.now spot.level 0 < 1_000_000) × (spot.at < 65_536) }
        ensures counted { self.new.rows.now ≡ set self.old.rows.now spot.level (get_or self.old.rows.now spot.level 0 + 1) }
        ensures written { self.new.words.now ≡ row_put self.old.n self.old.words.now (get_or self.old.rows.now spot.level 0) (kind_number kind ∷ get_or self.old.rows.now (spot.level + 1) 0 ∷ 0 ∷ owner_at spot.level self.old.rows.now ∷ spot.label.start ∷ spot.label.length ∷ []) }
        ensures others { (self.new.bytes.now ≡ self.old.bytes.now) × (self.new.text.now ≡ self.old.text.now) }
        ensures same { SameAreas self.old self.new }
        ensures moved { (result.at ≡ spot.at + 1) × (result.level ≡ spot.level + 1) × (result.label.start ≡ 0) × (result.label.length ≡ 0) }
    {
        let inner = spot.level + 1;
        let first = self.rows[inner];
        let behind = self.write_row(spot, spot.at + 1, kind, first, 0);
        Spot {
            level: inner,
            ..behind
        }
    }

    // The end at the spot of the container that is open.
    fn close_row(&mut self, spot: Spot) -> Spot
        requires { (0 < spot.level) × (spot.level < length self.old.rows.now) × (row_words * self.old.n ≤ length self.old.words.now) × (spot.at < 65_536) }
        ensures written { self.new.words.now ≡ row_shut self.old.n self.old.words.now (get_or self.old.rows.now (spot.level - 1) 0 - 1) (get_or self.old.rows.now spot.level 0) }
        ensures others { (self.new.rows.now ≡ self.old.rows.now) × (self.new.bytes.now ≡ self.old.bytes.now) × (self.new.text.now ≡ self.old.text.now) }
        ensures same { SameAreas self.old self.new }
        ensures moved { (result.at ≡ spot.at + 1) × (result.level ≡ spot.level - 1) × (result.label.start ≡ 0) × (result.label.length ≡ 0) }
    {
        let level = spot.level;
        let owner = self.owner(level);
        let next = self.rows[level];
        shut_row(self.words, self.n, owner as usize, next);
        Spot {
            at: spot.at + 1,
            level: level - 1,
            label: NO_LABEL,
        }
    }

    // The string or name at the spot: the bytes that it stands for are written, and the row of a
    // string.
    fn write_string(&mut self, json: &[u8], spot: Spot) -> Spot
        requires reading { Reading json.now spot.at spot.level }
        requires ready_2 { ReadyAt spot self.old }
        requires at_in_bounds { (spot.at < length json.now) × (length json.now ≤ 65_536) × (get_or json.now spot.at 0 ≡ 0x22) }
        ensures going { (s : Reading json.now spot.at spot.level) → Going self.old.n json.now spot.at (desk_at spot self.old) s result.at (desk_at result self.new) }
        ensures ready { ReadyAt result self.new × (spot.at < result.at) }
        ensures same { SameAreas self.old self.new }
    {
        let k = spot.level;
        let from = self.bytes[k];
        let end = copy_string(json, spot.at + 1, self.text, from as usize);
        let size = (end.at - from as usize) as u32;
        self.bytes[k] = from + size;
        let behind = skip(json, end.to);
        if byte_at(json, behind) == b':' {
            let label = Range {
                start: from,
                length: size,
            };
            return Spot {
                at: behind + 1,
                label,
                ..spot
            };
        }
        self.write_row(spot, end.to, RowKind::String, from, size)
    }

    // The lexeme at the spot: what belongs to it is written, and the spot is moved behind it.
    fn turn(&mut self, json: &[u8], spot: Spot) -> Spot
        requires reading { Reading json.now spot.at spot.level }
        requires ready_2 { ReadyAt spot self.old }
        requires at_in_bounds { (spot.at < length json.now) × (length json.now ≤ 65_536) }
        ensures going { (s : Reading json.now spot.at spot.level) → Going self.old.n json.now spot.at (desk_at spot self.old) s result.at (desk_at result self.new) }
        ensures ready { ReadyAt result self.new × (spot.at < result.at) }
        ensures same { SameAreas self.old self.new }
    {
        let i = spot.at;
        let byte = json[i];
        if byte == b'"' {
            return self.write_string(json, spot);
        }
        if byte <= b',' {
            return Spot { at: i + 1, ..spot };
        }
        if byte <= b'9' {
            let f = read_number(json, i);
            return self.write_row(spot, f.to, RowKind::Number, f.word, f.scale);
        }
        if byte == b'[' {
            return self.open_row(spot, RowKind::Array);
        }
        if byte == b'{' {
            return self.open_row(spot, RowKind::Object);
        }
        if byte == b']' {
            return self.close_row(spot);
        }
        if byte == b'}' {
            return self.close_row(spot);
        }
        if byte == b'n' {
            return self.write_row(spot, i + 4, RowKind::Null, 0, 0);
        }
        if byte == b't' {
            return self.write_row(spot, i + 4, RowKind::True, 0, 0);
        }
        self.write_row(spot, i + 5, RowKind::False, 0, 0)
    }
}

// The sheet of the text's value, of n rows, and the text's bytes, at the starts of the areas. The
// counters stand at the starts of the levels. docs/PROMISES.md names these parameters.
pub fn write_sheet(
    json: &[u8],
    n: u32,
    size: u32,
    rows: &mut [u32],
    bytes: &mut [u32],
    words: &mut [u32],
    text: &mut [u8],
)
    requires writable { Writable json.now n size rows.old bytes.old words.old text.old }
    requires sizes_bounded { (length json.now ≤ 65_536) × (n < 65_536) × (size ≤ 65_536) }
    ensures { (w : Writable json.now n size rows.old bytes.old words.old text.old) → Stands w.of words.old text.old words.new text.new }
{
    let many = n as usize;
    clear_rows(words, many);
    let mut areas = Areas {
        rows,
        bytes,
        words,
        text,
        n: many,
    };
    let mut spot = Spot {
        at: 0,
        level: 0,
        label: NO_LABEL,
    };
    // Each turn moves the spot behind one lexeme, as long as that is.
    while spot.at < json.len() {
        spot = areas.turn(json, spot);
    }
    finish(areas.words, n, size);
}
