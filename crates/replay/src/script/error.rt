//! Why a line is not a command.

use thiserror::Error;

/// What is wrong with an argument.
#[derive(Debug, Drop, Error)]
pub enum ArgumentError {
    /// It is not a decimal number, or the number does not fit `u64`.
    #[error("is not a decimal number up to 18446744073709551615 without sign or leading zeros")]
    NotANumber,

    /// It is neither `0` nor `1`.
    #[error("is not a bit, which is 0 or 1")]
    NotABit,

    /// It has a byte that is not a hexadecimal digit, and is not `-`.
    #[error("has a byte that is not a hexadecimal digit")]
    NotHexadecimal,

    /// The number of its hexadecimal digits is odd.
    #[error("has an odd number of hexadecimal digits, and each byte has two")]
    OddDigits,

    /// Its digits are not as many bytes as the command takes.
    #[error("has the wrong number of bytes: {found}, not {wanted}")]
    WrongLength { wanted: usize, found: usize },

    /// It is not a range of lengths.
    #[error("is not a range: any, exact:A, least:A, most:A or between:A:E with decimal numbers")]
    NotARange,
}

/// The error of `Line::parse`.
#[derive(Debug, Drop, Error)]
pub enum LineError {
    /// The last byte is a carriage return.
    #[error("it ends with a carriage return, as in a file with Windows line ends: lines end with a line feed alone")]
    CarriageReturn,

    /// A word is empty: the line begins or ends with a space, or two spaces are adjacent.
    #[error("it has a space too many: one space is between two words, and none is before or after them")]
    ExtraSpace,

    /// No command has this name.
    #[error("there is no command of this name")]
    UnknownName,

    /// The command of this name takes another number of arguments.
    #[error("the command has the wrong number of arguments: {found}, not {wanted}")]
    WrongCount { wanted: usize, found: usize },

    /// An argument is wrong. The arguments are counted from 1.
    #[error("argument {index} {error}")]
    Argument { index: usize, error: ArgumentError },
}
