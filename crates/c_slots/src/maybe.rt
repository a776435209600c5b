//! A box taken apart, or none.

ghost use Rattle.std.specs.Prelude.{◌≡◌, Option, Some, None};
ghost use Rattle.std.specs.Coded.{coded_option};
ghost use Rattle.c_slots.specs.Maybe.{maybe_owns, null_ptr};

use crate::Parts;
use std::alloc::Allocator;
use std::marker::Model;
use std::ptr;

/// What a box is made of, or the null pointer. It owns what the box owned; one that is dropped
/// gives nothing back.
pub struct MaybeParts<T, A: Allocator> {
    /// Where the value is.
    pub ptr: *mut T,
    /// Where its memory came from.
    pub alloc: A,
    pub ghost value: { Option T } by { coded_option T.code },
}

impl<T, A: Allocator> Model for MaybeParts<T, A> {
    ghost also_owns = { λ p. maybe_owns (A.dealloc_token p.alloc) T.row p.ptr p.value };
}

impl<T, A: Allocator> MaybeParts<T, A> {
    /// Those of a box.
    pub fn of(parts: Parts<T, A>) -> MaybeParts<T, A>
        ensures { result.value ≡ Some parts.value }
    {
        let Parts { ptr, alloc } = parts;
        MaybeParts { ptr, alloc }
    }

    /// No box: the null pointer.
    pub fn none(alloc: A) -> MaybeParts<T, A>
        ensures { (result.value ≡ None) × (result.ptr ≡ null_ptr) }
    {
        MaybeParts {
            ptr: ptr::null_mut(),
            alloc,
        }
    }
}
