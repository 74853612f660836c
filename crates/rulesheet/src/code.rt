// What belongs to a code: its shape. `specs/Codes.antt` has 01's table, and `rulecodes` tells a code's
// shape by it.
ghost use Rattle.std.specs.Prelude.{◌≡◌};
ghost use Rattle.rulesheet.specs.Faults.{is_list, is_named};

// What a clause's first and count are, or what the entries are that they name.
#[derive(Clone, Copy)]
pub enum Fields {
    Unknown,
    Bare,
    Types,
    Number,
    Positive,
    Limit,
    Schema,
    Values,
    Names,
    Schemas,
    Members,
    Branches,
    Counted,
}

// A code's fields, how many entries it has at least and at most, and whether it applies its schemas to
// the row itself.
#[derive(Clone, Copy)]
pub struct Shape {
    pub fields: Fields,
    pub least: u32,
    pub most: u32,
    pub unguarded: bool,
}

impl Fields {
    // Whether the fields are a list of entries.
    pub fn is_list(self) -> bool
        ensures { result ≡ is_list self }
    {
        match self {
            Fields::Values
            | Fields::Names
            | Fields::Schemas
            | Fields::Members
            | Fields::Branches
            | Fields::Counted => true,
            _ => false,
        }
    }

    // Whether they are a list of things with names, each of which may stand once only.
    pub fn is_named(self) -> bool
        ensures { result ≡ is_named self }
    {
        matches!(self, Fields::Names | Fields::Members)
    }
}
