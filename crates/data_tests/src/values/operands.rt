//! Operands of arithmetic, results, and values in the seven orders.

use mlr_spec::{Op, Op1};

/// An operator, two operands, and what the result shows.
pub(crate) type Binary = (Op, &'static str, &'static str, &'static str);

/// The rules by kinds.
pub(crate) const BY_KIND: [Binary; 22] = [
    (Op::Plus, "7", "absent", "7"),
    (Op::Plus, "absent", "0x0F", "0x0F"),
    (Op::Plus, "absent", "absent", "absent"),
    (Op::Plus, "absent", "", ""),
    (Op::Plus, "", "absent", ""),
    (Op::Plus, "", "7", ""),
    (Op::Plus, "7", "", ""),
    (Op::Plus, "abc", "7", "(error)"),
    (Op::Plus, "7", "abc", "(error)"),
    (Op::Plus, "absent", "abc", "(error)"),
    (Op::Plus, "true", "absent", "(error)"),
    (Op::Plus, "absent", "map", "(error)"),
    (Op::Plus, "", "array", "(error)"),
    (Op::Plus, "error", "", "(error)"),
    (Op::Plus, "1.50", "absent", "1.50"),
    (Op::Plus, "1.50", "", ""),
    (Op::Plus, "", "99999999999999999999", ""),
    (Op::Plus, "1.50", "2", "(error)"),
    (Op::Plus, "2", "99999999999999999999", "(error)"),
    (
        Op::Times,
        "absent",
        "99999999999999999999",
        "99999999999999999999",
    ),
    (Op::DotPlus, "absent", "1.50", "1.50"),
    (Op::BitAnd, "true", "1", "(error)"),
];

/// Ints, of which the result has no spelling.
pub(crate) const OF_INTS: [Binary; 10] = [
    (Op::Plus, "0x0F", "1", "16"),
    (Op::Plus, "0xffffffffffffffff", "2", "1"),
    (Op::Plus, "9223372036854775807", "1", "(error)"),
    (
        Op::DotPlus,
        "9223372036854775807",
        "1",
        "-9223372036854775808",
    ),
    (Op::Minus, "007", "0", "7"),
    (Op::Divide, "6", "4", "(error)"),
    (Op::IntDivide, "-7", "2", "-4"),
    (Op::Mod, "-7", "2", "1"),
    (Op::Power, "0", "0", "1"),
    (Op::ShiftLeft, "1", "64", "1"),
];

/// An operator, its operand, and what the result shows.
pub(crate) const UNARY: [(Op1, &str, &str); 12] = [
    (Op1::Neg, "-9223372036854775808", "(error)"),
    (Op1::Neg, "0x10", "-16"),
    (Op1::Neg, "", ""),
    (Op1::Neg, "absent", "absent"),
    (Op1::Neg, "1.5", "(error)"),
    (Op1::Neg, "abc", "(error)"),
    (Op1::Neg, "true", "(error)"),
    (Op1::Pos, "0x0F", "0x0F"),
    (Op1::Pos, "99999999999999999999", "(error)"),
    (Op1::Pos, "map", "(error)"),
    (Op1::BitNot, "0", "-1"),
    (Op1::BitNot, "array", "(error)"),
];

/// A value, and its rank among the values of a list.
pub(crate) type Ranked = (usize, &'static str);

pub(crate) const BY_TEXT: [Ranked; 14] = [
    (0, "absent"),
    (0, ""),
    (1, "error"),
    (2, "-5"),
    (3, "0x0F"),
    (4, "10"),
    (5, "9"),
    (6, "A"),
    (7, "_"),
    (8, "a"),
    (9, "abc"),
    (10, "true"),
    (11, "map"),
    (11, "array"),
];

pub(crate) const BY_TEXT_DOWN: [Ranked; 8] = [
    (0, "true"),
    (1, "abc"),
    (2, "a"),
    (3, "9"),
    (4, "10"),
    (5, "absent"),
    (6, "map"),
    (6, "array"),
];

pub(crate) const BY_FOLDED: [Ranked; 10] = [
    (0, "_"),
    (1, "A"),
    (1, "a"),
    (2, "AB"),
    (2, "ab"),
    (3, "aBC"),
    (4, "B"),
    (4, "b"),
    (5, "map"),
    (5, "array"),
];

pub(crate) const BY_FOLDED_DOWN: [Ranked; 7] = [
    (0, "b"),
    (0, "B"),
    (1, "Ab"),
    (2, "a"),
    (2, "A"),
    (3, "_"),
    (4, "map"),
];

pub(crate) const BY_NUMBER: [Ranked; 13] = [
    (0, "-9223372036854775808"),
    (1, "-1"),
    (2, "0"),
    (2, "0x0"),
    (3, "5"),
    (4, "9223372036854775807"),
    (5, "abc"),
    (5, ""),
    (5, "1.5"),
    (5, "absent"),
    (5, "true"),
    (5, "map"),
    (5, "99999999999999999999"),
];

pub(crate) const BY_NUMBER_DOWN: [Ranked; 6] = [
    (0, "map"),
    (0, "abc"),
    (0, "1.5"),
    (1, "5"),
    (2, "0"),
    (3, "-1"),
];

pub(crate) const MIXED: [Ranked; 15] = [
    (0, "-3"),
    (1, "2"),
    (1, "0x2"),
    (2, "false"),
    (3, "true"),
    (4, ""),
    (5, "A"),
    (6, "a"),
    (7, "ab"),
    (8, "1.5"),
    (8, "99999999999999999999"),
    (8, "absent"),
    (8, "map"),
    (8, "array"),
    (8, "error"),
];
