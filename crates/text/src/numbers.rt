// Numbers in a line: hexadecimal digits, down or up, and the number that is the first field of a text, up to the tab or the line feed
// that ends it.
ghost use Rattle.std.specs.Prelude.{◌<◌, ◌≤◌, ◌≡◌, ◌∷◌, [], IfSome};
ghost use Rattle.std.specs.Option.{unwrap_or};
ghost use Rattle.text.specs.Line.{hex_digit, hex, level, natural, number, minus};
ghost use Rattle.text.specs.Fronts.{upto, seen};

// The value of an upper-case digit.
#[tactic(auto, unfolding(crate::specs::Line::hex_digit))]
pub fn hex_digit(b: u8) -> Option<u8>
    ensures value { unwrap_or result 16 ≡ hex_digit b }
    ensures digit { IfSome result (λ d. d ≤ 15) }
{
    match b {
        b'0'..=b'9' => Some(b - b'0'),
        b'A'..=b'F' => Some(b - b'A' + 10),
        _ => None,
    }
}

// The byte that two digits make.
#[tactic(auto, unfolding(crate::specs::Line::hex))]
pub(crate) fn hex(a: u8, b: u8) -> Option<u8>
    ensures { result ≡ hex (a ∷ b ∷ []) }
{
    Some(16 * hex_digit(a)? + hex_digit(b)?)
}

// Down or up.
#[tactic(auto, unfolding(crate::specs::Line::level))]
pub(crate) fn level(b: u8) -> Option<bool>
    ensures { result ≡ level (b ∷ []) }
{
    match b {
        b'0' => Some(false),
        b'1' => Some(true),
        _ => None,
    }
}

// The most digits of a number.
const MOST_DIGITS: usize = 4;

// The digits up to `stop`, at which the field ends, and the text after it.
fn digits(s: &[u8], stop: u8) -> Option<(u16, &[u8])>
    requires { stop < minus }
    ensures value { seen result ≡ upto natural stop s.now }
    ensures small { IfSome result (λ p. p.0 ≤ 9999) }
{
    let mut value = 0;
    for (i, b) in s.iter().enumerate() {
        match *b {
            b'0'..=b'9' if i < MOST_DIGITS => value = value * 10 + u16::from(*b - b'0'),
            end if end == stop && 0 < i => return Some((value, &s[i + 1..])),
            _ => return None,
        }
    }
    None
}

// An optional minus, and the digits.
#[tactic(auto, using(crate::proofs::Signs::negative, crate::proofs::Signs::positive))]
pub(crate) fn number(s: &[u8], stop: u8) -> Option<(i16, &[u8])>
    requires { stop < minus }
    ensures { seen result ≡ upto number stop s.now }
{
    if let [b'-', rest @ ..] = s {
        let (n, rest) = digits(rest, stop)?;
        return Some((-(n as i16), rest));
    }
    let (n, rest) = digits(s, stop)?;
    Some((n as i16, rest))
}
