//! Sessions: a bitmap with its history, driven by a list of commands.
//!
//! A `Session` takes commands, such as `Push`, `Commit` or `Rewind`, and appends one reply per command. It refuses a command
//! that its bitmap does not allow, and a refused command changes nothing. So a caller needs no proof about positions or
//! lengths: any list of commands is valid input.
//!
//! The contract of `Session::run` is the main theorem of this repository: it fixes the replies to every list of commands.
//!
//! One bit is pushed and committed, and the commit is read back:
//!
//! ```
//! use bitmap_session::command::Command;
//! use bitmap_session::reply::Reply;
//! use bitmap_session::session::Session;
//! use std::alloc::{AllocError, Global};
//!
//! /// Commits a bitmap of one bit under 7, and reads it back. Returns one reply per command.
//! pub fn first_commit(alloc: Global) -> Result<Vec<Reply<8>>, AllocError> {
//!     let commands = [
//!         Command::Begin,
//!         Command::Push(true),
//!         Command::Commit(7),
//!         Command::At(7),
//!     ];
//!     let mut session = Session::<8>::new(alloc);
//!     let mut replies = Vec::new(alloc);
//!     session.run(commands.as_slice(), &mut replies)?;
//!     Ok(replies)
//! }
//! ```
//!
//! The replies are `Done`, `Done`, `Done` and a `Snapshot` of the bitmap with one bit, unless an allocation fails.
//!
//! A session outlives its process by its history: its current bitmap, its kept commits and its last number. `Session::save`
//! writes the history as bytes, and `Session::load` makes a session of it. `Session::delta` writes what brings a replica from one
//! commit to a later one, and `Session::apply_delta` applies it.
//!
//! A `LoggedSession` of the module `logged` has a log besides: after a crash it is recovered from the bytes that its commands appended.
#![tactic(auto)]

pub mod command;
pub mod laws;
pub mod logged;
pub mod reply;
pub mod session;
