//! Parsing of scripts, line by line.

ghost use Rattle.std.specs.Prelude.{◌<◌, IfSome};

mod error;

use bitmap_core::bitmap::codec::RangeCfg;
use bitmap_session::command::Command;
pub use error::{ArgumentError, LineError};
use std::alloc::{AllocError, Global};

// Adds the index of an argument, counted from 1, to its error.
fn argument<T>(index: usize, parsed: Result<T, ArgumentError>) -> Result<T, LineError> {
    match parsed {
        Ok(value) => Ok(value),
        Err(error) => Err(LineError::Argument { index, error }),
    }
}

// Returns the value of a decimal digit.
fn decimal_digit(byte: u8) -> Option<u8>
    ensures { IfSome result (λ digit. digit < 10) }
{
    match byte {
        b'0'..=b'9' => Some(byte - b'0'),
        _ => None,
    }
}

// Returns the value of a decimal number without a sign or leading zeros.
fn decimal_value(word: &[u8]) -> Option<u64> {
    if word.is_empty() || (word.len() > 1 && word[0] == b'0') {
        return None;
    }
    let mut value: u64 = 0;
    for byte in word {
        let digit = decimal_digit(*byte)?;
        value = value.checked_mul(10)?.checked_add(u64::from(digit))?;
    }
    Some(value)
}

// Returns a word as text.
fn text(word: Option<&[u8]>) -> Option<&str> {
    str::from_utf8(word?).ok()
}

// Parses a decimal number.
fn decimal(word: &[u8]) -> Result<u64, ArgumentError> {
    decimal_value(word).ok_or(ArgumentError::NotANumber)
}

// Returns the value of a hexadecimal digit of either case.
fn hex_digit(byte: u8) -> Option<u8>
    ensures { IfSome result (λ digit. digit < 16) }
{
    match byte {
        b'0'..=b'9' => Some(byte - b'0'),
        b'a'..=b'f' => Some(byte - b'a' + 10),
        b'A'..=b'F' => Some(byte - b'A' + 10),
        _ => None,
    }
}

// Returns the byte of two hexadecimal digits.
fn hex_byte(digits: &[u8; 2]) -> Option<u8> {
    Some(hex_digit(digits[0])? * 16 + hex_digit(digits[1])?)
}

// Splits a word into pairs of hexadecimal digits, one pair per byte. `-` is the empty sequence.
fn hex_bytes(word: &[u8]) -> Result<&[[u8; 2]], ArgumentError> {
    if word == b"-".as_slice() {
        return Ok(&[]);
    }
    if word.is_empty() || word.iter().any(|it| hex_digit(*it).is_none()) {
        return Err(ArgumentError::NotHexadecimal);
    }
    match word.as_chunks::<2>() {
        (bytes, []) => Ok(bytes),
        _ => Err(ArgumentError::OddDigits),
    }
}

// Parses a number of chunks.
fn count(word: &[u8]) -> Result<usize, ArgumentError> {
    match usize::try_from(decimal(word)?) {
        Ok(count) => Ok(count),
        Err(_) => Err(ArgumentError::NotANumber),
    }
}

// Parses `0` or `1`.
fn bit(word: &[u8]) -> Result<bool, ArgumentError> {
    match word {
        b"0" => Ok(false),
        b"1" => Ok(true),
        _ => Err(ArgumentError::NotABit),
    }
}

// Parses `N` bytes, two hexadecimal digits each.
fn bytes<const N: usize>(word: &[u8]) -> Result<[u8; N], ArgumentError> {
    let pairs = hex_bytes(word)?;
    let found = pairs.len();
    if found != N {
        return Err(ArgumentError::WrongLength { wanted: N, found });
    }
    let mut bytes = [0; N];
    for (index, pair) in pairs.iter().enumerate() {
        bytes[index] = hex_byte(pair).ok_or(ArgumentError::NotHexadecimal)?;
    }
    Ok(bytes)
}

// Returns the value of a range of lengths, whose parts are separated by colons.
fn range_value(word: &[u8]) -> Option<RangeCfg> {
    let mut parts = word.split(|byte| *byte == b':');
    let name = text(parts.next())?;
    match (name, parts.next(), parts.next(), parts.next()) {
        ("any", None, ..) => Some(RangeCfg::any()),
        ("exact", Some(len), None, _) => Some(RangeCfg::exact(decimal_value(len)?)),
        ("least", Some(least), None, _) => Some(RangeCfg::at_least(decimal_value(least)?)),
        ("most", Some(most), None, _) => Some(RangeCfg::at_most(decimal_value(most)?)),
        ("between", Some(least), Some(most), None) => {
            Some(RangeCfg::between(decimal_value(least)?, decimal_value(most)?))
        }
        _ => None,
    }
}

// Parses a range of lengths.
fn range(word: &[u8]) -> Result<RangeCfg, ArgumentError> {
    range_value(word).ok_or(ArgumentError::NotARange)
}

// Returns the command of a name without arguments.
fn alone<const N: usize>(name: &str) -> Result<Command<N>, LineError> {
    Ok(match name {
        "begin" => Command::Begin,
        "pop" => Command::Pop,
        "abort" => Command::Abort,
        "len" => Command::Len,
        "pruned-chunks" => Command::PrunedChunks,
        "encode" => Command::Encode,
        "commits" => Command::Commits,
        "latest" => Command::Latest,
        "earliest" => Command::Earliest,
        "clear" => Command::Clear,
        "entries" => Command::Entries,
        _ => return Err(LineError::UnknownName),
    })
}

// Returns the command of a name and a decimal number.
fn with_number<const N: usize>(name: &str, word: &[u8]) -> Result<Command<N>, LineError> {
    let number = argument(1, decimal(word));
    Ok(match name {
        "prune" => Command::Prune(number?),
        "commit" => Command::Commit(number?),
        "rewind" => Command::Rewind(number?),
        "get" => Command::Get(number?),
        "chunk" => Command::Chunk(number?),
        "at" => Command::At(number?),
        "encode-at" => Command::EncodeAt(number?),
        "exists" => Command::Exists(number?),
        "drop-before" => Command::DropBefore(number?),
        _ => return Err(LineError::UnknownName),
    })
}

// Returns the command of a name and one argument.
fn with_one<const N: usize>(name: &str, word: &[u8]) -> Result<Command<N>, LineError> {
    Ok(match name {
        "start" => Command::Start(argument(1, count(word))?),
        "push" => Command::Push(argument(1, bit(word))?),
        "push-byte" => {
            let [byte] = argument(1, bytes::<1>(word))?;
            Command::PushByte(byte)
        }
        "push-chunk" => Command::PushChunk(argument(1, bytes(word))?),
        _ => return with_number(name, word),
    })
}

// Returns the command of a name and two arguments.
fn with_two<'a, const N: usize>(
    name: &str,
    first: &'a [u8],
    second: &[u8],
) -> Result<Line<'a, N>, LineError> {
    Ok(match name {
        "set" => Line::Plain(Command::Set(argument(1, decimal(first))?, argument(2, bit(second))?)),
        "ones" => Line::Plain(Command::Ones(
            argument(1, decimal(first))?,
            argument(2, decimal(second))?,
        )),
        "decode" => Line::Decode(argument(1, hex_bytes(first))?, argument(2, range(second))?),
        _ => return Err(LineError::UnknownName),
    })
}

// Returns the command of a name and three arguments.
fn with_three<const N: usize>(name: &str, words: [&[u8]; 3]) -> Result<Command<N>, LineError> {
    match name {
        "ones-at" => Ok(Command::OnesAt(
            argument(1, decimal(words[0]))?,
            argument(2, decimal(words[1]))?,
            argument(3, decimal(words[2]))?,
        )),
        _ => Err(LineError::UnknownName),
    }
}

// Returns whether a command has the name that was looked up.
fn is_known<T>(found: &Result<T, LineError>) -> bool {
    !matches!(found, Err(LineError::UnknownName))
}

// Returns how many arguments the command of a name takes.
fn count_of_arguments(name: &str) -> Option<usize> {
    if is_known(&alone::<1>(name)) {
        Some(0)
    } else if is_known(&with_one::<1>(name, b"")) {
        Some(1)
    } else if is_known(&with_two::<1>(name, b"", b"")) {
        Some(2)
    } else if is_known(&with_three::<1>(name, [b"", b"", b""])) {
        Some(3)
    } else {
        None
    }
}

// Returns why a line is not a command, from the error of parsing its words.
fn reason(line: &[u8], error: LineError) -> LineError {
    if line.ends_with(b"\r") {
        return LineError::CarriageReturn;
    }
    let mut words = line.split(|byte| *byte == b' ');
    if words.any(|word| word.is_empty()) {
        return LineError::ExtraSpace;
    }
    let mut words = line.split(|byte| *byte == b' ');
    let wanted = text(words.next()).and_then(count_of_arguments);
    let found = words.count();
    match wanted {
        Some(wanted) if wanted != found => LineError::WrongCount { wanted, found },
        _ => error,
    }
}

/// A line that is a command.
#[derive(Drop)]
pub enum Line<'a, const N: usize> {
    /// Any command except `Decode`.
    Plain(Command<N>),
    /// `Decode`: the bytes, as pairs of hexadecimal digits borrowed from the script, and the range.
    Decode(&'a [[u8; 2]], RangeCfg),
}

impl<'a, const N: usize> Line<'a, N> {
    // Parses a line. An error says `UnknownName` also if the number of arguments is wrong.
    fn parse_words(line: &'a [u8]) -> Result<Self, LineError> {
        let mut words = line.split(|byte| *byte == b' ');
        let Some(name) = text(words.next()) else {
            return Err(LineError::UnknownName);
        };
        let command = match (words.next(), words.next(), words.next(), words.next()) {
            (None, ..) => alone(name)?,
            (Some(word), None, ..) => with_one(name, word)?,
            (Some(first), Some(second), None, _) => return with_two(name, first, second),
            (Some(first), Some(second), Some(third), None) => {
                with_three(name, [first, second, third])?
            }
            _ => return Err(LineError::UnknownName),
        };
        Ok(Line::Plain(command))
    }

    /// Parses a line, whose words are separated by one space each.
    ///
    /// # Errors
    ///
    /// Returns why the line is not a command.
    ///
    /// # Memory
    ///
    /// Does not allocate.
    ///
    /// # Complexity
    ///
    /// Linear in the bytes of the line.
    pub fn parse(line: &'a [u8]) -> Result<Self, LineError> {
        match Line::parse_words(line) {
            Ok(parsed) => Ok(parsed),
            Err(error) => Err(reason(line, error)),
        }
    }

    /// Converts the line into its command.
    ///
    /// # Errors
    ///
    /// Returns `AllocError` if the bytes of a `Decode` cannot be allocated.
    ///
    /// # Memory
    ///
    /// Allocates the bytes of a `Decode`, and nothing for other commands.
    ///
    /// # Complexity
    ///
    /// Linear in those bytes; constant for other commands.
    pub fn into_command(self, alloc: Global) -> Result<Command<N>, AllocError> {
        match self {
            Line::Plain(command) => Ok(command),
            Line::Decode(digits, range) => {
                let text = digits.iter().filter_map(hex_byte).collect(alloc)?;
                Ok(Command::Decode(text, range))
            }
        }
    }
}

/// Returns whether a line is skipped: an empty line, or a comment, which begins with `#`.
///
/// Does not allocate; constant time.
pub fn is_skipped(line: &[u8]) -> bool {
    line.is_empty() || line[0] == b'#'
}
