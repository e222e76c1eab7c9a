//! The operators of arithmetic, and the orders by which values are compared.

/// The operators on two values, by their effect on two ints.
#[derive(Clone, Copy, Debug, PartialEq, Eq)]
pub enum Op {
    /// `+`
    Plus,
    /// `-`
    Minus,
    /// `*`
    Times,
    /// `.+`, modulo 2^64.
    DotPlus,
    /// `.-`, modulo 2^64.
    DotMinus,
    /// `.*`, modulo 2^64.
    DotTimes,
    /// `/`, where the quotient is a whole number.
    Divide,
    /// `//`, rounded down.
    IntDivide,
    /// `%`, with the sign of the modulus.
    Mod,
    /// `**`
    Power,
    /// `&`
    BitAnd,
    /// `|`
    BitOr,
    /// `^`
    BitXor,
    /// `<<`, by a count modulo 64.
    ShiftLeft,
    /// `>>`, by a count modulo 64, which keeps the sign.
    ShiftRight,
    /// `>>>`, by a count modulo 64, which fills with zeros.
    ShiftRightZero,
}

/// The operators on one value.
#[derive(Clone, Copy, Debug, PartialEq, Eq)]
pub enum Op1 {
    /// `-`
    Neg,
    /// `+`, which keeps the spelling.
    Pos,
    /// `~`
    BitNot,
}

/// The orders of values. Values that an order doesn't tell apart stay in their places when they are sorted.
#[derive(Clone, Copy, Debug, PartialEq, Eq)]
pub enum Order {
    /// By the bytes of their texts, with collections last.
    Text,
    /// The texts downwards, with collections last.
    TextDown,
    /// By the bytes of their texts with ASCII letters in lower case, and collections last.
    Folded,
    /// The same texts downwards, with collections last.
    FoldedDown,
    /// Ints upwards, and then all other values as equal.
    Number,
    /// All other values first, as equal, and then ints downwards.
    NumberDown,
    /// Ints, `false`, `true`, empty, strings by their bytes, and then all other values as equal.
    Mixed,
}
