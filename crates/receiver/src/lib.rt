// The host's side of the wire: where the first packet of received bytes ends, and what kind it is.
#![tactic(auto)]

ghost use Rattle.std.specs.Prelude.{◌≡◌};
ghost use Rattle.receiver.specs.Cut.{start, cut, length_of, number};

// The kinds that a host can tell, each by the first byte.
#[derive(Clone, Copy, Debug, PartialEq, Eq)]
pub enum Kind {
    // a make code
    Make,
    // a break code other than 0xF0
    Break,
    // 0xF0: the version, which a reset sends, or the break of 0x70; the wire does not tell which
    VersionOrBreak,
    // 0xF6: a status reply
    Status,
    // 0xF7: the mouse's position
    MousePosition,
    // 0xF8 to 0xFB: mouse motion, with the buttons in the two lowest bits
    MouseMotion,
    // 0xFC: the time of day
    Time,
    // 0xFD: both sticks, asked for
    BothSticks,
    // 0xFE or 0xFF: an event of stick 0 or 1
    StickEvent,
}

// The first packet of received bytes: its kind and its length; or that more bytes must come first; or that no packet begins so.
// No Option and no Result: three outcomes, each of which a host goes on from in a way of its own (`cut` names them).
#[derive(Clone, Copy, Debug, PartialEq, Eq)]
pub enum Cut {
    Whole { kind: Kind, length: usize },
    TooFew,
    NoPacket,
}

impl Cut {
    // How many bytes are taken: none where there is no whole packet.
    pub fn length(self) -> usize
        ensures { result ≡ length_of self }
    {
        match self {
            Cut::Whole { length, .. } => length,
            Cut::TooFew | Cut::NoPacket => 0,
        }
    }

    // The answer's number: 6 where no packet begins with the first byte, else 0.
    pub fn number(self) -> u8
        ensures { result ≡ number self }
    {
        match self {
            Cut::Whole { .. } | Cut::TooFew => 0,
            Cut::NoPacket => 6,
        }
    }
}

// The table of first bytes: the kind and the length of the packet that each starts.
#[tactic(auto, unfolding(crate::specs::Cut::start, output::specs::ScanCodes::is_make, output::specs::ScanCodes::is_break))]
fn started_by(first: u8) -> Option<(Kind, usize)>
    ensures { result ≡ start first }
{
    match first {
        0x01..=0x72 | 0x74 | 0x75 => Some((Kind::Make, 1)),
        0xF0 => Some((Kind::VersionOrBreak, 1)),
        0x81..=0xF2 | 0xF4 | 0xF5 => Some((Kind::Break, 1)),
        0xF6 => Some((Kind::Status, 8)),
        0xF7 => Some((Kind::MousePosition, 6)),
        0xF8..=0xFB => Some((Kind::MouseMotion, 3)),
        0xFC => Some((Kind::Time, 7)),
        0xFD => Some((Kind::BothSticks, 3)),
        0xFE | 0xFF => Some((Kind::StickEvent, 2)),
        _ => None,
    }
}

// The first packet of received bytes. Only the first byte is looked at, and how many there are.
#[tactic(auto, unfolding(crate::specs::Cut::cut))]
pub fn first_packet(bytes: &[u8]) -> Cut
    ensures { result ≡ cut bytes.now }
{
    let Some(first) = bytes.first() else {
        return Cut::TooFew;
    };
    let Some((kind, length)) = started_by(*first) else {
        return Cut::NoPacket;
    };
    if bytes.len() < length {
        return Cut::TooFew;
    }
    Cut::Whole { kind, length }
}
