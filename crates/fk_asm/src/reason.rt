//! Why a line is refused.
ghost use Rattle.std.specs.Prelude.{◌≡◌};
ghost use Rattle.fk_asm.specs.Reasons as definitions;

/// Why a line is refused.
#[derive(Clone, Copy)]
pub enum Reason {
    /// The name of its label is ill-formed, its operation is unknown, or has too few or too many operands.
    Form,
    /// A number is ill-formed or too large, or a label in a number's place is ill-formed.
    Number,
    /// A register is ill-formed.
    Register,
    /// An earlier line defines its label too.
    Defined,
    /// No line defines a label that it names.
    Undefined,
    /// Its word would be the 16,385th.
    Length,
}

impl Reason {
    /// The number by which a reason is told, 1 to 6.
    pub fn number(self) -> u8
        ensures { result ≡ definitions.reason_number self }
    {
        match self {
            Reason::Form => 1,
            Reason::Number => 2,
            Reason::Register => 3,
            Reason::Defined => 4,
            Reason::Undefined => 5,
            Reason::Length => 6,
        }
    }
}
