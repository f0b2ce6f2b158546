//! A session: commands in, one reply per command.

use bitmap_session::command::Command;
use bitmap_session::reply::Reply;
use bitmap_session::session::Session;
use std::alloc::{AllocError, Global};

/// Commits a bitmap of one bit under 7, and reads it back. Returns one reply per command.
pub fn first_commit(alloc: Global) -> Result<Vec<Reply<8>>, AllocError> {
    let commands = [
        Command::Begin,
        Command::Push(true),
        Command::Commit(7),
        Command::At(7),
    ];
    let mut session = Session::<8>::new(alloc);
    let mut replies = Vec::new(alloc);
    session.run(commands.as_slice(), &mut replies)?;
    Ok(replies)
}

#[cfg(test)]
mod tests {
    use super::*;
    use crate::checks::equal;

    #[test]
    fn reads_the_commit_back(rt: HostRuntime) -> Result<(), AllocError> {
        let mut replies = first_commit(rt.alloc())?;
        let Some(Reply::Snapshot(Some(bitmap))) = replies.pop() else {
            panic!(rt; "the last reply is another one");
        };
        assert!(rt; bitmap.len() == 1 && bitmap.pruned_bits() == 0 && bitmap.get_bit(0));
        equal(&rt, replies.len(), 3);
        assert!(rt; replies.iter().all(|reply| matches!(reply, Reply::Done)));
        Ok(())
    }
}
