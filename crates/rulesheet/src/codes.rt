// The codes of clauses, by keyword: the numbers of 01's table. `specs/Codes.antt` has its lines.
pub const NEVER: u32 = 1;

pub const TYPE: u32 = 2;

pub const ENUM: u32 = 3;

pub const MINIMUM: u32 = 10;

pub const MAXIMUM: u32 = 11;

pub const EXCLUSIVE_MINIMUM: u32 = 12;

pub const EXCLUSIVE_MAXIMUM: u32 = 13;

pub const MULTIPLE_OF: u32 = 14;

pub const MIN_LENGTH: u32 = 20;

pub const MAX_LENGTH: u32 = 21;

pub const MIN_ITEMS: u32 = 22;

pub const MAX_ITEMS: u32 = 23;

pub const MIN_PROPERTIES: u32 = 24;

pub const MAX_PROPERTIES: u32 = 25;

pub const REQUIRED: u32 = 26;

pub const ALL_OF: u32 = 30;

pub const ANY_OF: u32 = 31;

pub const ONE_OF: u32 = 32;

pub const NOT: u32 = 33;

pub const REF: u32 = 34;

pub const IF_THEN_ELSE: u32 = 36;

pub const DEPENDENT_SCHEMAS: u32 = 37;

pub const PROPERTIES: u32 = 40;

pub const ADDITIONAL_PROPERTIES: u32 = 42;

pub const PREFIX_ITEMS: u32 = 43;

pub const ITEMS: u32 = 44;

pub const CONTAINS: u32 = 45;

pub const UNEVALUATED_PROPERTIES: u32 = 60;

pub const UNEVALUATED_ITEMS: u32 = 61;
