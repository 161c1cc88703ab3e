//! What a datagram carries.
ghost use Rattle.std.specs.Prelude.{◌≡◌};
ghost use Rattle.std.specs.Option.{option_map};
ghost use Rattle.bac_apdu.specs.Views.{apdu_view};
ghost use Rattle.bac_npdu.specs.Views.{npdu_view};
ghost use Rattle.bac_server.specs.Frames.{apdu_in, contents_of, npdu_in};

use bac_apdu::{Apdu, read};
use bac_npdu::{Npdu, read_bvll, read_npdu};

/// The NPDU of a frame; None where the octets are no frame.
pub(crate) fn npdu_in(datagram: &[u8]) -> Option<Npdu<'_>>
    ensures { option_map npdu_view result ≡ npdu_in datagram.now }
{
    let Ok(octets) = read_bvll(datagram) else {
        return None;
    };
    match read_npdu(octets) {
        Ok(npdu) => Some(npdu),
        Err(_) => None,
    }
}

/// The APDU that an NPDU has; None where it has none.
pub(crate) fn apdu_of<'a>(npdu: &Npdu<'a>) -> Option<Apdu<'a>>
    ensures { option_map apdu_view result ≡ contents_of (Some (npdu_view npdu.now)) }
{
    match read(npdu.contents) {
        Ok(apdu) => Some(apdu),
        Err(_) => None,
    }
}

/// The APDU of a frame; None where the octets are no frame of one.
pub(crate) fn apdu_in(datagram: &[u8]) -> Option<Apdu<'_>>
    ensures { option_map apdu_view result ≡ apdu_in datagram.now }
{
    match npdu_in(datagram) {
        Some(npdu) => apdu_of(&npdu),
        None => None,
    }
}
