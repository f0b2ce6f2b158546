//! A session whose width is chosen when it is made, and its log, if it keeps one.

ghost use Rattle.std.specs.Prelude.{◌≡◌, IfSome, None, is_some};
ghost use Rattle.bitmap_session.specs.Machine.{first_machine};
ghost use Rattle.bitmap_c.specs.Widths.{is_width, log_of, machine, width};

use bitmap_session::session::Session;
use commit_log::Log;
use std::alloc::Global;

/// A session with chunks of 1, 8, 32 or 64 bytes, and the log of its commits, if it keeps one.
#[derive(Drop)]
pub enum AnySession {
    Width1(Session<1>, Option<Log<1>>),
    Width8(Session<8>, Option<Log<8>>),
    Width32(Session<32>, Option<Log<32>>),
    Width64(Session<64>, Option<Log<64>>),
}

/// Creates a session with chunks of `bytes` bytes and no log, or returns `None` if that is not a width. Does not allocate.
pub fn new_session(alloc: Global, bytes: u32) -> Option<AnySession>
    ensures offered { is_some result ≡ is_width bytes }
    ensures width { IfSome result (λ made. width made ≡ bytes) }
    ensures first { IfSome result (λ made. machine made ≡ first_machine) }
    ensures unlogged { IfSome result (λ made. log_of made ≡ None) }
{
    match bytes {
        1 => Some(AnySession::Width1(Session::new(alloc), None)),
        8 => Some(AnySession::Width8(Session::new(alloc), None)),
        32 => Some(AnySession::Width32(Session::new(alloc), None)),
        64 => Some(AnySession::Width64(Session::new(alloc), None)),
        _ => None,
    }
}
