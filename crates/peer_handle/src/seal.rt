//! A `Box<Machine>`, or none, whose type names no machine: C may keep it.
ghost use Rattle.std.specs.Prelude.{◌≡◌, Some, None, is_some, true};
ghost use Rattle.peer_handle.specs.Ownership.{Kept, kept_coded, seal_owns};

use crate::machine::Machine;
use crate::parts::Parts;
use std::alloc::Global;
use std::marker::Model;

/// The parts of a box of a machine, if there is one: a program in C may keep them.
#[repr(C)]
#[derive(Drop)]
pub struct Seal {
    ptr: *mut u8,
    alloc: Global,
    pub ghost value: { Kept } by { kept_coded },
}

impl Model for Seal {
    ghost also_owns = { λ s. seal_owns s.alloc s.ptr s.value };
}

impl Seal {
    /// The parts of a box, sealed.
    pub(crate) fn of_parts(parts: Parts<Machine, Global>) -> Seal
        ensures { result.value ≡ Some parts.value }
    {
        let Parts { ptr, alloc } = parts;
        Seal {
            ptr: ptr as *mut u8,
            alloc,
        }
    }

    /// The parts that are sealed.
    pub(crate) fn into_parts(self) -> Parts<Machine, Global>
        requires { is_some self.value ≡ true }
        ensures { Some result.value ≡ self.value }
    {
        let Seal { ptr, alloc } = self;
        Parts {
            ptr: ptr as *mut Machine,
            alloc,
        }
    }

    /// No parts.
    pub(crate) fn none(alloc: Global) -> Seal
        ensures { result.value ≡ None }
    {
        Seal {
            ptr: std::ptr::null_mut(),
            alloc,
        }
    }
}
