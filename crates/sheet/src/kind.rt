// The kinds of a record row, their numbers and the bounds of a number. These numbers stand here and
// nowhere else in the code; `specs/Kinds.antt` has 01's.
ghost use Rattle.std.specs.Prelude.{◌≡◌};
ghost use Rattle.sheet.specs.Kinds.{kind_number, is_kind, kind_of, holds_children, is_object_kind, number_ok, KindRead};

use decimal::Decimal;

#[derive(Clone, Copy, PartialEq, Eq)]
pub enum RowKind {
    Null = 0,
    False = 1,
    True = 2,
    Number = 3,
    String = 4,
    Array = 5,
    Object = 6,
}

// A number that is no kind's.
#[derive(Clone, Copy, PartialEq, Eq)]
pub struct UnknownKind(pub u32);

impl TryFrom<u32> for RowKind {
    type Error = UnknownKind;

    ghost try_from_gives = { KindRead };

    #[tactic(auto, unfolding(crate::specs::Kinds::kind_of))]
    fn try_from(code: u32) -> Result<RowKind, UnknownKind> {
        match code {
            RowKind::NULL => Ok(RowKind::Null),
            RowKind::FALSE => Ok(RowKind::False),
            RowKind::TRUE => Ok(RowKind::True),
            RowKind::NUMBER => Ok(RowKind::Number),
            RowKind::STRING => Ok(RowKind::String),
            RowKind::ARRAY => Ok(RowKind::Array),
            RowKind::OBJECT => Ok(RowKind::Object),
            _ => Err(UnknownKind(code)),
        }
    }
}

impl RowKind {
    pub const NULL: u32 = RowKind::Null as u32;

    pub const FALSE: u32 = RowKind::False as u32;

    pub const TRUE: u32 = RowKind::True as u32;

    pub const NUMBER: u32 = RowKind::Number as u32;

    pub const STRING: u32 = RowKind::String as u32;

    pub const ARRAY: u32 = RowKind::Array as u32;

    pub const OBJECT: u32 = RowKind::Object as u32;

    // The most digits of a number, on either side of zero.
    pub const NUMBER_MAX: u64 = 999_999_999;

    // The least number in two's complement.
    const NUMBER_MIN: u64 = 4_294_967_296 - RowKind::NUMBER_MAX;

    // Whether the number is a kind's.
    pub fn known(code: u32) -> bool
        ensures { result ≡ is_kind code }
    {
        RowKind::try_from(code).is_ok()
    }

    // The kind of a number, and `Null` for a number that is no kind's.
    pub fn of(code: u32) -> RowKind
        ensures { result ≡ kind_of code }
    {
        RowKind::try_from(code).unwrap_or(RowKind::Null)
    }

    // 01's number of the kind.
    pub fn number(self) -> u32
        ensures { result ≡ kind_number self }
    {
        self as u32
    }

    // Whether a row of this kind can have children.
    pub fn holds_children(self) -> bool
        ensures { result ≡ holds_children self }
    {
        matches!(self, RowKind::Array | RowKind::Object)
    }

    // Whether a row of this kind is an object, whose children have names.
    pub fn is_object(self) -> bool
        ensures { result ≡ is_object_kind self }
    {
        self == RowKind::Object
    }

    // Whether a number's two words, digits in two's complement and scale, are within its bounds.
    pub fn number_ok(first: u32, count: u32) -> bool
        ensures { result ≡ number_ok first count }
    {
        let digits = first as u64;
        let near = (digits <= RowKind::NUMBER_MAX) | (RowKind::NUMBER_MIN <= digits);
        near & (count <= Decimal::SCALE_MAX)
    }
}
