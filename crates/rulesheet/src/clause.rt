// The clauses of a rule sheet, each code its own variant: who judges by them never sees a code.
// `rulereader` reads them.
use decimal::Decimal;
use sheet::record::RuleRow;

// The entries of a list clause: `count` of them from `first` on.
#[derive(Clone, Copy)]
pub struct Entries {
    pub first: u32,
    pub count: u32,
}

// A clause by its keyword. `Types` is the keyword `type`, with its mask.
#[derive(Clone, Copy)]
pub enum Clause {
    Never,
    Types(u32),
    Enum(Entries),
    Minimum(Decimal),
    Maximum(Decimal),
    ExclusiveMinimum(Decimal),
    ExclusiveMaximum(Decimal),
    MultipleOf(Decimal),
    MinLength(u32),
    MaxLength(u32),
    MinItems(u32),
    MaxItems(u32),
    MinProperties(u32),
    MaxProperties(u32),
    Required(Entries),
    AllOf(Entries),
    AnyOf(Entries),
    OneOf(Entries),
    Not(RuleRow),
    Ref(RuleRow),
    IfThenElse(Entries),
    DependentSchemas(Entries),
    Properties(Entries),
    AdditionalProperties(RuleRow),
    PrefixItems(Entries),
    Items(RuleRow),
    Contains(Entries),
    UnevaluatedProperties(RuleRow),
    UnevaluatedItems(RuleRow),
}
