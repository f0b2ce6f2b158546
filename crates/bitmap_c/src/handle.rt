//! Handles: empty, or with a session, which a call borrows in its place. This module has the crate's only unsafe code.

ghost use Rattle.std.specs.Prelude.{◌≡◌, Option, None, Some};
ghost use Rattle.std.specs.Borrow.{sem, LendsIf};
ghost use Rattle.std.specs.Option.{option_map};
ghost use Rattle.bitmap_c.specs.Handles.{owned};
ghost use Rattle.bitmap_c.specs.contracts.any.AnySession.{the_row};
ghost use Rattle.bitmap_c.specs.declared.any.AnySession.{AnySession as Held};

use crate::any::AnySession;
use std::alloc::Global;
use std::marker::Model;
use std::mem;

/// A handle: a null pointer if it is empty, and otherwise the place of its session.
///
/// Only an empty handle may be dropped, which frees nothing.
#[repr(C)]
pub struct Handle {
    session: *mut u8,
    alloc: Global,
    ghost value: { Option Held },
}

impl Model for Handle {
    ghost also_owns = { λ h. owned the_row h.alloc h.session h.value };
}

impl Drop for Handle {
    fn drop(self)
        requires empty { self.value ≡ None }
    {
        let Handle {
            session: _,
            alloc: _,
        } = self;
    }
}

impl Handle {
    /// Creates an empty handle. Does not allocate.
    fn empty(alloc: Global) -> Handle
        ensures { result.value ≡ None }
    {
        Handle {
            session: std::ptr::null_mut(),
            alloc,
        }
    }

    /// Makes a handle of a box. The session keeps its place: nothing is moved, copied or allocated.
    fn of(session: Box<AnySession>) -> Handle
        ensures { result.value ≡ Some session.value }
    {
        let (session, alloc) = Box::into_raw_with_allocator(session);
        Handle {
            session: session as *mut u8,
            alloc,
        }
    }

    ghost use Rattle.bitmap_c.specs.Lends.{with_session};
    ghost use Rattle.bitmap_c.specs.contracts.handle.Handle.{the_row as handle_row};

    /// Borrows the session of a handle in its place, or returns `None` if the handle is empty. Writes nothing, and does not allocate.
    pub fn session_mut(&mut self) -> Option<&mut AnySession>
        ensures* writes_back { sem 𝓛 (LendsIf handle_row the_row self.entry result
            (with_session self.old) self.old) }
        ensures value { option_map (λ s. s.now) result ≡ self.old.value }
    {
        let session = self.session;
        if session.is_null() {
            return None;
        }
        // The pointer is not null, so the handle owns a session there.
        unsafe { Some(&mut *(session as *mut AnySession)) }
    }

    /// Returns the box of a handle, or `None` if the handle is empty. Nothing is moved, copied or allocated.
    fn into_session(self) -> Option<Box<AnySession>>
        ensures { option_map (λ b. b.value) result ≡ self.value }
    {
        let Handle { session, alloc } = self;
        if session.is_null() {
            return None;
        }
        // The pointer is not null, so the handle owns a session there.
        unsafe { Some(Box::from_raw(alloc, session as *mut AnySession)) }
    }
}

/// Takes the session out of a handle, which is then empty.
pub fn take(alloc: Global, handle: &mut Handle) -> Option<Box<AnySession>>
    ensures taken { option_map (λ b. b.value) result ≡ handle.old.value }
    ensures empty { handle.new.value ≡ None }
{
    mem::replace(handle, Handle::empty(alloc)).into_session()
}

/// Puts a session into an empty handle.
pub fn put(handle: &mut Handle, session: Box<AnySession>)
    requires empty { handle.old.value ≡ None }
    ensures { handle.new.value ≡ Some session.value }
{
    *handle = Handle::of(session);
}

unsafe impl Send for Handle {}
