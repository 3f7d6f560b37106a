//! An inlet on the heap, as a handle that C can hold.

ghost use Rattle.std.specs.Prelude.{◌≡◌, true, false, Bool};
ghost use Rattle.cmh_reader.specs.Reader.{Reader};
ghost use Rattle.cmh_seat.specs.Inner.OwnedInlet.{inlet_coded, inlet_owns};

use crate::inlet::Inlet;
use crate::parts::Parts;
use std::alloc::Global;
use std::marker::Model;

/// The address of an inlet that lies on the heap, or of nothing. Zeros are nothing.
///
/// Dropping one that is open gives nothing back: it goes through `into_box`.
#[repr(C)]
#[derive(Drop)]
pub struct HeldInlet {
    at: *mut u8,
    alloc: Global,
    pub ghost is_open: { Bool },
    pub ghost inlet: { Reader } by { inlet_coded },
}

impl Model for HeldInlet {
    ghost also_owns = { λ s. inlet_owns s.is_open s.alloc s.at s.inlet };
}

impl HeldInlet {
    /// The handle of an inlet.
    pub fn of(inlet: Box<Inlet, Global>) -> HeldInlet
        ensures open { result.is_open ≡ true }
        ensures inlet { result.inlet ≡ inlet.value }
    {
        HeldInlet::of_parts(Parts::of(inlet))
    }

    /// The inlet of a handle that is open.
    pub fn into_box(self) -> Box<Inlet, Global>
        requires { self.is_open ≡ true }
        ensures { result.value ≡ self.inlet }
    {
        self.into_parts().into_box()
    }

    fn of_parts(parts: Parts<Inlet, Global>) -> HeldInlet
        ensures { (result.is_open ≡ true) × (result.inlet ≡ parts.value) }
    {
        let Parts { ptr, alloc } = parts;
        HeldInlet {
            at: ptr as *mut u8,
            alloc,
        }
    }

    fn into_parts(self) -> Parts<Inlet, Global>
        requires { self.is_open ≡ true }
        ensures { result.value ≡ self.inlet }
    {
        let HeldInlet { at, alloc } = self;
        Parts {
            ptr: at as *mut Inlet,
            alloc,
        }
    }

    /// A handle of nothing.
    pub fn nothing(alloc: Global) -> HeldInlet
        ensures { result.is_open ≡ false }
    {
        HeldInlet {
            at: std::ptr::null_mut(),
            alloc,
        }
    }
}

unsafe impl Send for HeldInlet {}
