//! The commands of a script. A line has the name of a command and at most three words after it, with one space before each.

use hex::FromHex;

/// An edit of a batch, on positions in bits. Chunks are given by their bytes, and by their absolute index.
#[derive(Drop)]
pub enum Edit<const N: usize> {
    Push(bool),
    PushByte(u8),
    PushChunk([u8; N]),
    Pop,
    Truncate(u64),
    ExtendTo(u64),
    Set(u64, bool),
    SetChunk(usize, [u8; N]),
    PruneTo(u64),
}

/// A command.
#[derive(Drop)]
pub enum Command<const N: usize> {
    /// Begins the next history, with an empty bitmap.
    New,
    Begin,
    Edit(Edit<N>),
    Commit(u64),
    Abort,
    Rewind(u64),
    DropBefore(u64),
    Clear,
    /// Prints the current root, and each kept number with its root.
    Roots,
    /// Prints the encoding of a proof: for the version with the first number, of the chunk of the position in bits.
    Prove(u64, u64),
    /// Prints the encoding of the proof of a range: for the version with the number, from the chunk with an index on, of so many chunks.
    ProveRange(u64, usize, usize),
}

// Returns the value of a decimal number that fits `u64`.
fn number(word: Option<&str>) -> Option<u64> {
    word?.parse::<u64>().ok()
}

// Returns the chunk that hexadecimal digits say.
fn chunk<const N: usize>(word: Option<&str>) -> Option<[u8; N]> {
    <[u8; N] as FromHex>::from_hex(word?).ok()
}

// Returns the edit of a line, or `None` if it has none.
fn edit_of<const N: usize>(
    name: &str,
    first: Option<&str>,
    second: Option<&str>,
) -> Option<Edit<N>> {
    let edit = match (name, number(first), number(second)) {
        ("push", Some(bit), _) => Edit::Push(bit != 0),
        ("push-byte", ..) => Edit::PushByte(chunk::<1>(first)?[0]),
        ("push-chunk", ..) => Edit::PushChunk(chunk(first)?),
        ("pop", ..) => Edit::Pop,
        ("truncate", Some(len), _) => Edit::Truncate(len),
        ("extend", Some(len), _) => Edit::ExtendTo(len),
        ("set", Some(position), Some(bit)) => Edit::Set(position, bit != 0),
        ("set-chunk", Some(index), _) => Edit::SetChunk(index as usize, chunk(second)?),
        ("prune", Some(position), _) => Edit::PruneTo(position),
        _ => return None,
    };
    Some(edit)
}

/// Returns the command of a line, or `None` if it has none.
pub fn command_of<const N: usize>(line: &str) -> Option<Command<N>> {
    let mut words = line.split(' ');
    let name = words.next()?;
    let (first, second, third) = (words.next(), words.next(), words.next());
    let command = match (name, number(first), number(second)) {
        ("new", ..) => Command::New,
        ("begin", ..) => Command::Begin,
        ("commit", Some(version), _) => Command::Commit(version),
        ("abort", ..) => Command::Abort,
        ("rewind", Some(version), _) => Command::Rewind(version),
        ("drop-before", Some(version), _) => Command::DropBefore(version),
        ("clear", ..) => Command::Clear,
        ("roots", ..) => Command::Roots,
        ("prove", Some(version), Some(position)) => Command::Prove(version, position),
        ("prove-range", Some(version), Some(index)) => {
            Command::ProveRange(version, index as usize, number(third)? as usize)
        }
        _ => Command::Edit(edit_of(name, first, second)?),
    };
    Some(command)
}
