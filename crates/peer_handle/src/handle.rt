//! What a C program keeps of a member.

ghost use Rattle.std.specs.Prelude.{◌≡◌, Some, None, is_some, true, false};

use crate::machine::Machine;
use crate::parts::Parts;
use crate::seal::Seal;
use std::alloc::Global;
use std::mem;

/// A member at work, or none. A C program keeps it in memory of its own, at first all zero.
#[repr(C)]
#[derive(Drop)]
pub struct Handle {
    pub(crate) full: bool,
    pub(crate) seal: Seal,
    ghost tied: { full ≡ is_some seal.value },
}

impl Handle {
    /// A handle that has no member.
    pub fn none(alloc: Global) -> Handle
        ensures { result.seal.value ≡ None }
    {
        Handle {
            full: false,
            seal: Seal::none(alloc),
        }
    }

    /// A handle that leads to a machine.
    pub(crate) fn of(machine: Box<Machine>) -> Handle
        ensures { result.seal.value ≡ Some machine.value }
    {
        Handle {
            full: true,
            seal: Seal::of_parts(Parts::of(machine)),
        }
    }

    /// The machine.
    fn into_box(self) -> Box<Machine>
        requires { self.full ≡ true }
        ensures { Some result.value ≡ self.seal.value }
    {
        let Handle { full: _, seal } = self;
        seal.into_parts().into_box()
    }
}

/// The machine of a handle that has one, which has none afterwards.
pub(crate) fn take(alloc: Global, h: &mut Handle) -> Box<Machine>
    requires { h.old.full ≡ true }
    ensures { (Some result.value ≡ h.old.seal.value) × (h.new.seal.value ≡ None) }
{
    mem::replace(h, Handle::none(alloc)).into_box()
}
