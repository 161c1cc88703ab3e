//! Links as words of a script.
ghost use Rattle.std.specs.Prelude.{◌≡◌};
ghost use Rattle.bac_simulate.specs.Lines.{host_of, link_of};

use bac_npdu::LinkAddress;
use bac_value_text::{number_up_to, parts_at};

/// The four octets of an address of IPv4, as `192.168.1.20`.
#[tactic(auto, unfolding(crate::specs::Lines::host_of))]
fn host_in(word: &[u8]) -> Option<[u8; 4]>
    ensures { result ≡ host_of word.now }
{
    let first = parts_at(b'.', word)?;
    let second = parts_at(b'.', first.1)?;
    let third = parts_at(b'.', second.1)?;
    let a = number_up_to(255, first.0)?;
    let b = number_up_to(255, second.0)?;
    let c = number_up_to(255, third.0)?;
    let d = number_up_to(255, third.1)?;
    Some([a as u8, b as u8, c as u8, d as u8])
}

/// The link that a word as `192.168.1.20:47808` is.
#[tactic(auto, unfolding(crate::specs::Lines::link_of))]
pub(crate) fn link_in(word: &[u8]) -> Option<LinkAddress>
    ensures { result ≡ link_of word.now }
{
    let parts = parts_at(b':', word)?;
    let host = host_in(parts.0)?;
    let port = number_up_to(65_535, parts.1)?;
    let [a, b, c, d] = host;
    Some([a, b, c, d, (port / 256) as u8, (port % 256) as u8])
}
