// What C holds of a machine, and of a bench: a pointer, or null.

ghost use Rattle.std.specs.Box.Ownership.{box_owns};
ghost use Rattle.std.specs.Prelude.{◌≡◌, Option, None, Some, MatchOption};
ghost use Rattle.rsp_c.specs.Holding.{holding, debugger_row, Opened, session_row, OpenedSession};

use crate::held_session::HeldSession;
use rsp_acc::PlaneAcc;
use rsp_debug::Debugger;
use std::alloc::{Allocator, Global};
use std::marker::Model;

/// The pointer and the allocator of a `Box`. Contracts see its value.
pub struct BoxParts<T, A: Allocator> {
    ptr: *mut T,
    alloc: A,
    pub ghost value: { T },
}

impl<T, A: Allocator> Model for BoxParts<T, A> {
    ghost also_owns = { λ p. box_owns (A.dealloc_token p.alloc) T.row p.ptr p.value };
}

impl<T, A: Allocator> BoxParts<T, A> {
    /// The fields of a box.
    pub fn of(b: Box<T, A>) -> BoxParts<T, A>
    where
        T: Drop,
        ensures { result.value ≡ b.value }
    {
        let (ptr, alloc) = Box::into_raw_with_allocator(b);
        BoxParts { ptr, alloc }
    }

    /// The box of these fields.
    pub fn into_box(self) -> Box<T, A>
        ensures { result.value ≡ self.value }
    {
        let BoxParts { ptr, alloc } = self;
        unsafe { Box::from_raw(alloc, ptr) }
    }
}

/// Owns a debugger with its machine, or nothing. In C it is `brsp_machine`, a struct of one pointer. Contracts see it as `debugger`.
#[repr(C)]
pub struct RspMachine {
    at: *mut u8,
    alloc: Global,
    pub ghost debugger: { Option Opened },
}

impl Model for RspMachine {
    ghost also_owns = { λ h. holding debugger_row h.alloc h.at h.debugger };
}

// The pointer is to a block that the handle alone owns, and nothing in a debugger is bound to a thread.
unsafe impl Send for RspMachine {}

impl RspMachine {
    /// A handle that owns nothing.
    pub fn none(alloc: Global) -> RspMachine
        ensures { result.debugger ≡ None }
    {
        RspMachine {
            at: std::ptr::null_mut(),
            alloc,
        }
    }

    /// The handle of a debugger.
    pub fn of(parts: BoxParts<Debugger<PlaneAcc>, Global>) -> RspMachine
        ensures { result.debugger ≡ Some parts.value }
    {
        let BoxParts { ptr, alloc } = parts;
        RspMachine {
            at: ptr as *mut u8,
            alloc,
        }
    }

    /// The debugger of the handle, if it owns one.
    pub fn into_parts(self) -> Option<BoxParts<Debugger<PlaneAcc>, Global>>
        ensures { MatchOption result (self.debugger ≡ None) (λ p. self.debugger ≡ Some p.value) }
    {
        let RspMachine { at, alloc } = self;
        if at.is_null() {
            return None;
        }
        Some(BoxParts {
            ptr: at as *mut Debugger<PlaneAcc>,
            alloc,
        })
    }

    /// Takes the debugger out of the handle, if it owns one.
    pub fn take(&mut self, alloc: Global) -> Option<Box<Debugger<PlaneAcc>, Global>>
        ensures was { MatchOption result (self.old.debugger ≡ None) (λ b. self.old.debugger ≡ Some b.value) }
        ensures now { self.new.debugger ≡ None }
    {
        let held = std::mem::replace(self, RspMachine::none(alloc));
        match held.into_parts() {
            None => None,
            Some(parts) => Some(parts.into_box()),
        }
    }

    /// Puts a debugger into the handle, which owns none. So there is nothing to free, and no test whether there is.
    pub fn put(&mut self, debugger: Box<Debugger<PlaneAcc>, Global>)
        requires { self.old.debugger ≡ None }
        ensures { self.new.debugger ≡ Some debugger.value }
    {
        std::mem::forget(std::mem::replace(self, RspMachine::of(BoxParts::of(debugger))));
    }
}

impl Drop for RspMachine {
    fn drop(self) {
        if let Some(parts) = self.into_parts() {
            drop(parts.into_box());
        }
    }
}

/// Owns a bench, or nothing. In C it is `brsp_session`, a struct of one pointer. A bench isn't a machine with more calls, because each
/// call on a machine would then have to say what it does to a script that is only partly answered. An export of a generic struct is
/// refused, so this says again what [`RspMachine`] says of a debugger.
#[repr(C)]
pub struct RspSession {
    at: *mut u8,
    alloc: Global,
    pub ghost bench: { Option OpenedSession },
}

impl Model for RspSession {
    ghost also_owns = { λ h. holding session_row h.alloc h.at h.bench };
}

// As of a `RspMachine`.
unsafe impl Send for RspSession {}

impl RspSession {
    /// A handle that owns nothing.
    pub fn none(alloc: Global) -> RspSession
        ensures { result.bench ≡ None }
    {
        RspSession {
            at: std::ptr::null_mut(),
            alloc,
        }
    }

    /// The handle of a bench.
    pub fn of(parts: BoxParts<HeldSession, Global>) -> RspSession
        ensures { result.bench ≡ Some parts.value }
    {
        let BoxParts { ptr, alloc } = parts;
        RspSession {
            at: ptr as *mut u8,
            alloc,
        }
    }

    /// The bench of the handle, if it owns one.
    pub fn into_parts(self) -> Option<BoxParts<HeldSession, Global>>
        ensures { MatchOption result (self.bench ≡ None) (λ p. self.bench ≡ Some p.value) }
    {
        let RspSession { at, alloc } = self;
        if at.is_null() {
            return None;
        }
        Some(BoxParts {
            ptr: at as *mut HeldSession,
            alloc,
        })
    }

    /// Takes the bench out of the handle, if it owns one.
    pub fn take(&mut self, alloc: Global) -> Option<Box<HeldSession, Global>>
        ensures was { MatchOption result (self.old.bench ≡ None) (λ b. self.old.bench ≡ Some b.value) }
        ensures now { self.new.bench ≡ None }
    {
        let held = std::mem::replace(self, RspSession::none(alloc));
        match held.into_parts() {
            None => None,
            Some(parts) => Some(parts.into_box()),
        }
    }

    /// Puts a bench into the handle, which owns none.
    pub fn put(&mut self, bench: Box<HeldSession, Global>)
        requires { self.old.bench ≡ None }
        ensures { self.new.bench ≡ Some bench.value }
    {
        std::mem::forget(std::mem::replace(self, RspSession::of(BoxParts::of(bench))));
    }
}

impl Drop for RspSession {
    fn drop(self) {
        if let Some(parts) = self.into_parts() {
            drop(parts.into_box());
        }
    }
}

/// The body of a call with a handle. What it holds is taken out, something is done with it, and it is put back. NO_MACHINE if it holds
/// nothing. The value of what is done is the status; after `do` it is OK. After `if` it is OUT_OF_RANGE unless the condition holds.
macro_rules! with_held {
    ($handle:ident, $alloc:ident, |$held:ident| do $work:expr) => {
        with_held!($handle, $alloc, |$held| {
            $work;
            $crate::status::OK
        })
    };
    ($handle:ident, $alloc:ident, |$held:ident| if $holds:expr => do $work:expr) => {
        with_held!($handle, $alloc, |$held| if $holds => {
            $work;
            $crate::status::OK
        })
    };
    ($handle:ident, $alloc:ident, |$held:ident| if $holds:expr => $work:expr) => {
        with_held!($handle, $alloc, |$held| {
            if $holds { $work } else { $crate::status::OUT_OF_RANGE }
        })
    };
    ($handle:ident, $alloc:ident, |$held:ident| $work:expr) => {
        match $handle.take($alloc) {
            None => $crate::status::NO_MACHINE,
            Some(mut $held) => {
                let status = $work;
                $handle.put($held);
                status
            }
        }
    };
}

pub(crate) use with_held;
