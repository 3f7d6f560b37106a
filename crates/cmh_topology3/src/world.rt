//! The number of a world.

ghost use Rattle.std.specs.Prelude.{◌≡◌, Some, length};
ghost use Rattle.cmh_topology3.specs.World.{IsReadAs, world_text};

use hex::FromHex;
use std::fmt;
use std::marker::Model;
use std::str::FromStr;

/// The number of a world: 16 bytes, drawn at random, so that sites and journals of different runs never meet.
#[derive(Clone, Copy, PartialEq, Eq)]
pub struct World {
    number: [u8; World::LEN],
}

impl Model for World {
    ghost use Rattle.std.specs.Prelude.{◌≡◌, ℕ, List, length};

    ghost Value = { List ℕ };

    ghost view = { λ w. w.number };

    ghost invariant = { λ w. length w.number ≡ 16 };

    ghost inverse = { λ bytes. record { number = bytes } };
}

impl World {
    /// How many bytes the number has.
    pub const LEN: usize = 16;

    pub fn new(number: [u8; World::LEN]) -> Self
        ensures { result ≡ number }
    {
        World { number }
    }

    pub fn as_bytes(&self) -> &[u8]
        ensures value { result.now ≡ self.now }
        ensures count { length result.now ≡ 16 }
    {
        &self.number
    }
}

/// As 32 hexadecimal digits in lower case.
impl fmt::Display for World {
    ghost output = { λ w. Some (world_text w) };

    fn fmt<W: fmt::Write>(&self, f: &mut fmt::Formatter<W>) -> fmt::Result {
        let bytes = self.number.as_slice();
        for byte in bytes {
            write!(f, "{byte:02x}")?;
        }
        Ok(())
    }
}

/// The text is not one of 32 hexadecimal digits.
#[derive(Clone, Copy)]
pub struct NoWorld;

/// From 32 hexadecimal digits, in either case.
impl FromStr for World {
    type Err = NoWorld;

    ghost from_str_gives = { IsReadAs };

    fn from_str(text: &str) -> Result<World, NoWorld> {
        match <[u8; World::LEN] as FromHex>::from_hex(text) {
            Ok(bytes) => Ok(World::new(bytes)),
            Err(_) => Err(NoWorld),
        }
    }
}
