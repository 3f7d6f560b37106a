//! The six bytes with which a link begins.

ghost use Rattle.std.specs.Prelude.{◌≡◌, ◌≢◌, ℕ, ◌≤◌, length, take, IfNone, IfSome};
ghost use Rattle.cmh_frames.specs.Number.{IsNumber};
ghost use Rattle.cmh_frames.specs.Wire.{hello};

use crate::edition::Edition;
use byteorder::{BigEndian, ByteOrder};
use cmh_runs::SiteId;

/// How many bytes a hello has.
pub const HELLO_LEN: usize = 6;

/// The bytes with which each hello begins.
const MARK: [u8; 3] = [b'C', b'M', b'H'];

/// The hello of a site.
pub fn encode_hello(edition: Edition, site: SiteId) -> [u8; HELLO_LEN]
    ensures { result ≡ hello edition site }
{
    let mut bytes = [0; HELLO_LEN];
    bytes[..3].copy_from_slice(&MARK);
    bytes[3] = edition.number();
    BigEndian::write_u16(&mut bytes[4..6], site.get());
    bytes
}

/// The site whose hello the bytes begin with: None where the mark, the edition or the number of the site is wrong.
pub fn decode_hello(edition: Edition, bytes: &[u8]) -> Option<SiteId>
    requires { 6 ≤ length bytes.now }
    ensures some { IfSome result (λ site. IsNumber site × (take 6 bytes.now ≡ hello edition site)) }
    ensures none { IfNone result ((site : ℕ) → IsNumber site → take 6 bytes.now ≢ hello edition site) }
{
    if !bytes.starts_with(&MARK) || bytes[3] != edition.number() {
        return None;
    }
    let site = SiteId::new(BigEndian::read_u16(&bytes[4..]))?;
    Some(site)
}
