//! A seat on the heap, as a handle that C can hold.

ghost use Rattle.std.specs.Prelude.{◌≡◌, true, false, Bool};
ghost use Rattle.cmh_seat3.specs.Seat.{Seat};
ghost use Rattle.cmh_seat3.specs.Inner.Owned.{held_owns, seat_coded};

use crate::seat::Seat;
use cmh_seat::Parts;
use std::alloc::Global;
use std::marker::Model;

/// The address of a seat that lies on the heap, or of nothing. Zeros are nothing.
///
/// Dropping one that is open gives nothing back: it goes through `into_box`.
#[repr(C)]
#[derive(Drop)]
pub struct Held {
    at: *mut u8,
    alloc: Global,
    pub ghost is_open: { Bool },
    pub ghost seat: { Seat } by { seat_coded },
}

impl Model for Held {
    ghost also_owns = { λ s. held_owns s.is_open s.alloc s.at s.seat };
}

impl Held {
    /// The handle of a seat.
    pub fn of(seat: Box<Seat, Global>) -> Held
        ensures open { result.is_open ≡ true }
        ensures seat { result.seat ≡ seat.value }
    {
        Held::of_parts(Parts::of(seat))
    }

    /// The seat of a handle that is open.
    pub fn into_box(self) -> Box<Seat, Global>
        requires { self.is_open ≡ true }
        ensures { result.value ≡ self.seat }
    {
        self.into_parts().into_box()
    }

    fn of_parts(parts: Parts<Seat, Global>) -> Held
        ensures { (result.is_open ≡ true) × (result.seat ≡ parts.value) }
    {
        let Parts { ptr, alloc } = parts;
        Held {
            at: ptr as *mut u8,
            alloc,
        }
    }

    fn into_parts(self) -> Parts<Seat, Global>
        requires { self.is_open ≡ true }
        ensures { result.value ≡ self.seat }
    {
        let Held { at, alloc } = self;
        Parts {
            ptr: at as *mut Seat,
            alloc,
        }
    }

    /// A handle of nothing.
    pub fn nothing(alloc: Global) -> Held
        ensures { result.is_open ≡ false }
    {
        Held {
            at: std::ptr::null_mut(),
            alloc,
        }
    }
}

unsafe impl Send for Held {}
