//! The operators of constant expressions (IDL 4.2, 7.4.1.4.3).

ghost use Rattle.dds_idl.specs.Operator.{Changes, Combines};

/// An operator between two numbers.
#[derive(Clone, Copy, Debug, PartialEq, Eq)]
pub(crate) enum Infix {
    Or,
    Xor,
    And,
    Left,
    Right,
    Add,
    Subtract,
    Multiply,
    Divide,
    Remainder,
}

/// An operator before a number.
#[derive(Clone, Copy, Debug, PartialEq, Eq)]
pub(crate) enum Prefix {
    Plus,
    Minus,
    Complement,
}

impl Infix {
    /// Returns how tightly the operator binds; those before a number bind more tightly.
    pub(crate) fn rank(self) -> u8 {
        match self {
            Infix::Or => 1,
            Infix::Xor => 2,
            Infix::And => 3,
            Infix::Left | Infix::Right => 4,
            Infix::Add | Infix::Subtract => 5,
            Infix::Multiply | Infix::Divide | Infix::Remainder => 6,
        }
    }

    /// Returns what the operator gives, `None` where that doesn't fit 64 bits, a divisor is 0, or
    /// a shift is by no number from 0 to 63.
    pub(crate) fn combined(self, left: i64, right: i64) -> Option<i64>
        ensures { Combines self left right result }
    {
        match self {
            Infix::Or => Some(left | right),
            Infix::Xor => Some(left ^ right),
            Infix::And => Some(left & right),
            Infix::Left => left.checked_shl(u32::try_from(right).ok()?),
            Infix::Right => left.checked_shr(u32::try_from(right).ok()?),
            Infix::Add => left.checked_add(right),
            Infix::Subtract => left.checked_sub(right),
            Infix::Multiply => left.checked_mul(right),
            Infix::Divide => left.checked_div(right),
            Infix::Remainder => left.checked_rem(right),
        }
    }
}

impl Prefix {
    /// Returns what the operator gives, `None` where that doesn't fit 64 bits.
    pub(crate) fn changed(self, number: i64) -> Option<i64>
        ensures { Changes self number result }
    {
        match self {
            Prefix::Plus => Some(number),
            Prefix::Minus => number.checked_neg(),
            Prefix::Complement => Some(!number),
        }
    }
}
