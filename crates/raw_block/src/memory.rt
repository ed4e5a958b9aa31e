//! The memory of a block: values lie in its first places, and the rest is room. Only the functions here follow a
//! pointer.
ghost use Rattle.std.specs.Prelude.{◌≡◌, ℕ, ◌+◌, ◌-◌, ◌<◌, List, [], ◌∷◌, ◌++◌, length, slice_index_or, IfOk, ⊤};
ghost use Rattle.std.specs.Borrow.{sem};
ghost use Rattle.std.specs.Vec.Ownership.{FitsInBlock};
ghost use base.Fml.{ftrue};
ghost use denote.RawPtr.{Ptr};
ghost use Rattle.raw_block.specs.Ownership.{filled_owns, filled_lends, lease_owns};

use std::alloc::{AllocError, Allocator};
use std::marker::{Model, PhantomData};
use std::mem::{align_of, size_of};
use std::slice;

/// Where a block begins. It owns nothing.
pub struct Start<T> {
    first: *mut T,
}

impl<T> Clone for Start<T> {
    ghost is_clone = { λ x y. y ≡ x };

    ghost is_infallible = { λ _. ⊤ };

    fn clone(&self) -> Result<Start<T>, AllocError> {
        Ok(*self)
    }
}

impl<T> Copy for Start<T> {}

/// The owner of a block's memory. It takes no space: the pointer and the numbers stand in the block.
pub struct Filled<T> {
    mark: PhantomData<*const T>,
    ghost at: { Ptr },
    ghost values: { List T },
    ghost room: { ℕ },
}

impl<T> Model for Filled<T> {
    ghost also_owns = { λ f. filled_owns T.row f.at f.values f.room };

    ghost also_shares = { λ f _ κ. filled_lends T.row f.at f.values f.room κ };
}

/// The right to give a block of `places` places back to the allocator that it came from. It takes no space.
pub struct Lease<T, A: Allocator> {
    mark: PhantomData<*const (T, A)>,
    ghost at: { Ptr },
    ghost places: { ℕ },
    ghost alloc: { A },
}

impl<T, A: Allocator> Model for Lease<T, A> {
    ghost also_owns = { λ l. lease_owns T.row (A.dealloc_token l.alloc) l.at l.places };

    ghost also_shares = { λ _ _ _. ftrue };
}

/// Memory for so many values, of which none is there yet: where it begins, its owner, and the right to give it back; or
/// the allocator's refusal.
pub(crate) fn take_block<T, A: Allocator>(
    alloc: &A,
    places: usize,
) -> Result<(Start<T>, Filled<T>, Lease<T, A>), AllocError>
    requires { FitsInBlock T.row places }
    ensures { IfOk result (λ r. (r.1.at ≡ r.0.first) × (r.1.values ≡ []) × (r.1.room ≡ places) × (r.2.at ≡ r.0.first) ×
        (r.2.places ≡ places) × (r.2.alloc ≡ alloc.now)) }
{
    match alloc.allocate(places * size_of::<T>(), align_of::<T>()) {
        Ok(memory) => {
            let start = Start {
                first: memory as *mut T,
            };
            Ok((
                start,
                Filled { mark: PhantomData },
                Lease { mark: PhantomData },
            ))
        }
        Err(error) => Err(error),
    }
}

/// The values go with the block: nothing of theirs is run.
pub(crate) fn return_block<T, A: Allocator>(
    alloc: &A,
    start: Start<T>,
    places: usize,
    filled: Filled<T>,
    lease: Lease<T, A>,
)
    requires { (filled.at ≡ start.first) × (length filled.values + filled.room ≡ places) × (lease.at ≡ start.first) ×
        (lease.places ≡ places) × (lease.alloc ≡ alloc.now) }
{
    let Filled { mark: _ } = filled;
    let Lease { mark: _ } = lease;
    unsafe {
        alloc.deallocate(
            start.first as *mut u8,
            places * size_of::<T>(),
            align_of::<T>(),
        );
    }
}

impl<T> Filled<T> {
    ghost use Rattle.raw_block.specs.Lends.{lends_value};

    /// Fills the place at `index`, the first that has no value yet.
    pub(crate) fn fill(&mut self, start: Start<T>, index: usize, value: T)
        requires { (start.first ≡ self.old.at) × (index ≡ length self.old.values) × (0 < self.old.room) }
        ensures { (self.new.at ≡ self.old.at) × (self.new.values ≡ self.old.values ++ value ∷ []) ×
            (self.new.room ≡ self.old.room - 1) }
    {
        unsafe { start.first.add(index).write(value) }
    }

    /// The values of the filled places, in order.
    pub(crate) fn values(&self, start: Start<T>, count: usize) -> &[T]
        requires { (start.first ≡ self.now.at) × (count ≡ length self.now.values) }
        ensures { result.now ≡ self.now.values }
    {
        unsafe { slice::from_raw_parts(start.first, count) }
    }

    /// The value at `index`.
    pub(crate) fn value_mut(&mut self, start: Start<T>, index: usize) -> &mut T
        requires { (start.first ≡ self.old.at) × (index < length self.old.values) }
        ensures* writes_back { sem 𝓛 (lends_value T.row self.entry index result) }
        ensures value { result.now ≡ slice_index_or self.old.values index result.now }
    {
        unsafe { &mut *start.first.add(index) }
    }
}
