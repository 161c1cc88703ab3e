//! Sending what waits.
ghost use Rattle.std.specs.Prelude.{◌≡◌, ◌≤◌, ◌<◌, [], length, true, OnOk};
ghost use Rattle.bac_shown.specs.Going.{Follows, Puts};
ghost use Rattle.bac_shown.specs.Pieces.{is_open, shown};

use crate::escape::push_octets;
use crate::form::Form;
use crate::piece::{remove_front, turn};
use std::io;
use std::io::{ErrorKind, Write};

/// Writes what waits. An Err is the writer's; what it did not take still waits.
pub(crate) fn send<W: Write>(waiting: &mut Vec<u8>, under: &mut W) -> io::Result<()>
    ensures kept { Follows (W.contents under.old) (W.contents under.new) waiting.old.items waiting.new.items [] }
    ensures sent { OnOk result (waiting.new.items ≡ []) }
{
    while !waiting.is_empty() {
        let count = under.write(waiting)?;
        if count == 0 {
            return Err(io::Error::from(ErrorKind::WriteZero));
        }
        remove_front(waiting, count);
    }
    Ok(())
}

/// Writes of what is held what more octets cannot change.
pub(crate) fn settle<W: Write>(
    form: Form,
    held: &mut Vec<u8>,
    waiting: &mut Vec<u8>,
    under: &mut W,
) -> io::Result<()>
    ensures kept { Puts form (W.contents under.old) (W.contents under.new) held.old.items held.new.items waiting.old.items waiting.new.items }
    ensures open { OnOk result (is_open held.new.items ≡ true) }
    ensures sent { OnOk result (waiting.new.items ≡ []) }
    ensures few { OnOk result (length held.new.items ≤ 3) }
{
    send(waiting, under)?;
    while turn(form, held, waiting)? {
        send(waiting, under)?;
    }
    Ok(())
}

/// Writes all that is held: what is no character by now becomes none.
pub(crate) fn finish<W: Write>(
    form: Form,
    held: &mut Vec<u8>,
    waiting: &mut Vec<u8>,
    under: &mut W,
) -> io::Result<()>
    ensures { OnOk result (Follows (W.contents under.old) (W.contents under.new) waiting.old.items [] (shown form held.old.items)) }
{
    settle(form, held, waiting, under)?;
    push_octets(form, held, waiting)?;
    send(waiting, under)
}
