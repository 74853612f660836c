// The answers of a check. `specs/Refusals.antt` gives each case 01's number and values.
ghost use Rattle.std.specs.Prelude.{◌≡◌, ◌+◌, ◌<◌, ◌≤◌, MatchResult};
ghost use Rattle.sheet.specs.Refusals.{refusal_number, Applies};

// Why a sheet is refused or, of `FewCells` and `ShortList`, why areas are too small for judging.
#[derive(Clone, Copy, Debug, PartialEq, Eq)]
pub enum Refusal {
    RecordTrailer,
    RecordLayout,
    RepeatedName,
    TooDeep,
    RuleTrailer,
    RuleLayout,
    RepeatedEntry,
    UnguardedLoop,
    LongChain,
    FewCells,
    ShortList,
    NotUtf8,
}

// A refusal and its place.
#[derive(Clone, Copy, Debug, PartialEq, Eq)]
pub struct Refused {
    pub refusal: Refusal,
    pub place: u32,
}

// What a check gives: the number of rows (of rules, the schemas), or why the sheet is refused.
pub type Checked = Result<u32, Refused>;

impl Refusal {
    // 01's number of the refusal.
    pub fn number(self) -> u32
        ensures { result ≡ refusal_number self }
    {
        match self {
            Refusal::RecordTrailer => 1,
            Refusal::RecordLayout => 2,
            Refusal::RepeatedName => 3,
            Refusal::TooDeep => 4,
            Refusal::RuleTrailer => 5,
            Refusal::RuleLayout => 6,
            Refusal::RepeatedEntry => 7,
            Refusal::UnguardedLoop => 8,
            Refusal::LongChain => 9,
            Refusal::FewCells => 10,
            Refusal::ShortList => 11,
            Refusal::NotUtf8 => 13,
        }
    }

    // A line of the table: refused where the lowest at fault is one of the `count` things that it asks.
    // Places count the things `before` them first.
    pub fn line(self, before: u32, lowest: u32, count: u32) -> Result<(), Refused>
        requires { before + count < 4294967296 }
        ensures { MatchResult result (λ _. count ≤ lowest) (λ r. Applies self before lowest count r) }
    {
        if lowest < count {
            return Err(Refused {
                refusal: self,
                place: before + lowest,
            });
        }
        Ok(())
    }
}
