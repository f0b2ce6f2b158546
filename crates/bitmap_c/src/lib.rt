//! The C interface: sessions in handles, for callers in C and in every language that calls C.
//!
//! A handle is empty, or has a `Session` whose chunks have 1, 8, 32 or 64 bytes. The caller owns the handle. Each function checks
//! its arguments and returns a status, so none has a `requires`. A call on an empty handle returns `EMPTY_HANDLE` and writes
//! nothing, unless the call makes a bitmap in it. The checks of proofs take no handle.
//!
//! The functions are declared here alone: `tools/interface.py` writes the declarations in C, Rust and Python, and makes the comments of
//! the header `bindings/c/mortarpink.h` of the documentation. So it names only what C has too: functions, statuses and parameters.
#![tactic(auto)]

// Evaluates an expression with the session of any width, whose log it leaves as it is.
macro_rules! at_width {
    ($any:expr, $session:ident => $body:expr) => {
        match $any {
            AnySession::Width1($session, _) => $body,
            AnySession::Width8($session, _) => $body,
            AnySession::Width32($session, _) => $body,
            AnySession::Width64($session, _) => $body,
        }
    };
}

// Evaluates an expression with the session of any width and its log.
macro_rules! with_log {
    ($any:expr, $session:ident, $log:ident => $body:expr) => {
        match $any {
            AnySession::Width1($session, $log) => $body,
            AnySession::Width8($session, $log) => $body,
            AnySession::Width32($session, $log) => $body,
            AnySession::Width64($session, $log) => $body,
        }
    };
}

// Evaluates an expression with the session of a handle, in its place; the status of an empty handle is that it is empty.
macro_rules! in_handle {
    ($handle:expr, $any:ident => $body:expr) => {{
        let Some($any) = $handle.session_mut() else {
            return EMPTY_HANDLE;
        };
        $body
    }};
}

mod any;
mod bulk;
mod bytes;
mod commits;
mod edits;
mod handle;
mod history;
mod logs;
mod making;
mod many;
mod pages;
mod past;
mod proofs;
mod queries;
mod reads;
mod recovery;
mod run;
mod saved;
mod searches;
mod status;
mod versions;
