//! Pointer fields of an object, those that are still to be looked at.
ghost use Rattle.std.specs.Prelude.{◌≡◌, ◌∷◌, ◌==◌, [], length, IfSome, IfNone};
ghost use Rattle.fk_checkpoint.specs.Seeking.Fields.{fields_in};
ghost use Rattle.laws_checkpoint.specs.Assembly.{fields_by, is_strict_number, pointers_by};

use fk_model::kind::{MAPPING, REFERENCE, REGION, SPACE, THREAD};

/// Fields by rising number.
#[derive(Clone, Copy)]
pub enum Fields {
    Nothing,
    Zero,
    Two,
    Three,
    ZeroTwo,
    TwoThree,
    OneToThree,
    ZeroToThree,
}

impl Fields {
    /// Whether none are left.
    pub fn is_empty(self) -> bool
        ensures { result ≡ (length (fields_in self) == 0) }
    {
        matches!(self, Fields::Nothing)
    }

    /// The first, and the others.
    pub fn split(self) -> Option<(u8, Fields)>
        ensures some { IfSome result (λ parts. fields_in self ≡ parts.0 ∷ fields_in parts.1) }
        ensures none { IfNone result (fields_in self ≡ []) }
    {
        match self {
            Fields::Nothing => None,
            Fields::Zero => Some((0, Fields::Nothing)),
            Fields::Two => Some((2, Fields::Nothing)),
            Fields::Three => Some((3, Fields::Nothing)),
            Fields::ZeroTwo => Some((0, Fields::Two)),
            Fields::TwoThree => Some((2, Fields::Three)),
            Fields::OneToThree => Some((1, Fields::TwoThree)),
            Fields::ZeroToThree => Some((0, Fields::OneToThree)),
        }
    }
}

/// The fields that count where a subtree isn't closed, by the number of a kind.
pub fn fields_by(kind: u64) -> Fields
    ensures { fields_in result ≡ fields_by kind }
{
    match kind {
        THREAD => Fields::ZeroTwo,
        MAPPING | REGION | SPACE | REFERENCE => Fields::Zero,
        _ => Fields::Nothing,
    }
}

/// The fields that an image keeps, by the number of a kind.
pub fn pointers_by(kind: u64) -> Fields
    ensures { fields_in result ≡ pointers_by kind }
{
    match kind {
        THREAD => Fields::ZeroToThree,
        MAPPING | REGION | REFERENCE => Fields::Zero,
        _ => Fields::Nothing,
    }
}

/// How many fields an image keeps, by the number of a kind.
pub fn asked_of(kind: u64) -> usize
    ensures { result ≡ length (pointers_by kind) }
{
    match kind {
        THREAD => 4,
        MAPPING | REGION | REFERENCE => 1,
        _ => 0,
    }
}

/// Whether an object of the kind with a number may not even lead to a port of the nester.
pub fn is_strict(kind: u64) -> bool
    ensures { result ≡ is_strict_number kind }
{
    kind == MAPPING || kind == SPACE
}
