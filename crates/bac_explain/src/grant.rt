//! Which segments may be sent, according to the SegmentACKs that were seen.
ghost use Rattle.std.specs.Prelude.{◌≡◌};
ghost use Rattle.bac_explain.specs.Grants.{asked_again, at_first, begun_again, granted_by, is_beyond, is_past, is_spent, is_sent_out, moved, moved_on, sent, sent_on};

use crate::numbers::{MOST_SENDS, ahead, is_ahead, is_behind, is_following, one_more};
use crate::part::Taken;

/// What the last SegmentACK allows, and how often the first of these segments was sent since.
#[derive(Clone, Copy, Debug, PartialEq, Eq)]
pub struct Granted {
    /// The sequence number of the last segment taken in order, modulo 256.
    pub number: u8,
    /// How many segments after that one may be sent.
    pub window: u8,
    /// How many times the first of them was seen; the count saturates.
    pub sends: u64,
}

/// Which segments may be sent (clause 5.3), according to the SegmentACKs that were seen.
#[derive(Clone, Copy, Debug, PartialEq, Eq)]
pub enum Grant {
    /// Only segment 0: no SegmentACK was seen.
    First,
    /// Unknown: the sender may have restarted, or it began before the capture, and no SegmentACK was seen since.
    Unknown,
    /// The segments of a window.
    Window(Granted),
}

impl Granted {
    /// The window that a SegmentACK allows.
    fn by(taken: Taken) -> Granted
        ensures { result ≡ granted_by taken }
    {
        Granted {
            number: taken.number,
            window: taken.window,
            sends: 0,
        }
    }

    /// Whether a segment with this number is after the window.
    fn is_past(self, number: u8) -> bool
        ensures { result ≡ is_past self number }
    {
        is_ahead(self.number, number) && ahead(self.number, number) > u16::from(self.window)
    }

    /// Whether a segment with this number is the first of the window, and was sent as often as allowed.
    fn is_sent_out(self, number: u8) -> bool
        ensures { result ≡ is_sent_out self number }
    {
        is_following(self.number, number) && self.sends >= MOST_SENDS
    }

    /// After a SegmentACK. One that acknowledges less than an earlier one changes nothing, as it was sent before that.
    fn moved(self, taken: Taken) -> Granted
        ensures { result ≡ moved_on taken self }
    {
        if is_behind(self.number, taken.number) {
            self
        } else {
            Granted::by(taken)
        }
    }

    /// After a segment with this number.
    fn sent(self, number: u8) -> Granted
        ensures { result ≡ sent_on number self }
    {
        if is_following(self.number, number) {
            Granted {
                sends: one_more(self.sends),
                ..self
            }
        } else {
            self
        }
    }
}

impl Grant {
    /// After the first APDU that is seen: unsegmented, or a segment with this number.
    pub(crate) fn at_first(number: Option<u8>) -> Grant
        ensures { result ≡ at_first number }
    {
        match number {
            None | Some(0) => Grant::First,
            Some(_) => Grant::Unknown,
        }
    }

    /// Whether a segment with this number is beyond the window; false for an unsegmented APDU.
    pub(crate) fn is_beyond(self, number: Option<u8>) -> bool
        ensures { result ≡ is_beyond self number }
    {
        let Some(number) = number else {
            return false;
        };
        match self {
            Grant::First => number != 0,
            Grant::Unknown => false,
            Grant::Window(granted) => granted.is_past(number),
        }
    }

    /// Whether a segment with this number was sent as often as allowed.
    pub(crate) fn is_spent(self, number: Option<u8>) -> bool
        ensures { result ≡ is_spent self number }
    {
        let Some(number) = number else {
            return false;
        };
        match self {
            Grant::First | Grant::Unknown => false,
            Grant::Window(granted) => granted.is_sent_out(number),
        }
    }

    /// After a SegmentACK.
    pub(crate) fn moved(self, taken: Taken) -> Grant
        ensures { result ≡ moved taken self }
    {
        match self {
            Grant::First | Grant::Unknown => Grant::Window(Granted::by(taken)),
            Grant::Window(granted) => Grant::Window(granted.moved(taken)),
        }
    }

    /// After a segment with this number.
    pub(crate) fn sent(self, number: Option<u8>) -> Grant
        ensures { result ≡ sent number self }
    {
        let Some(number) = number else {
            return self;
        };
        match self {
            Grant::First | Grant::Unknown => self,
            Grant::Window(granted) => Grant::Window(granted.sent(number)),
        }
    }

    /// After the first segment again: it may be an old copy, or its sender restarts.
    pub(crate) fn begun_again(self) -> Grant
        ensures { result ≡ begun_again self }
    {
        match self {
            Grant::First => Grant::First,
            Grant::Unknown | Grant::Window(_) => Grant::Unknown,
        }
    }

    /// After the request again, for which a server restarts its segments.
    pub(crate) fn asked_again(self) -> Grant
        ensures { result ≡ asked_again self }
    {
        match self {
            Grant::First | Grant::Unknown => self,
            Grant::Window(granted) => Grant::Window(Granted {
                sends: 0,
                ..granted
            }),
        }
    }
}
