// The kinds of lines, each by what stands past its first field and the tab: a text that goes on behind the line.
ghost use Rattle.std.specs.Prelude.{◌≡◌};
ghost use Rattle.controller.specs.declared.Input.TheVariants.{Byte, Key, Button, Move, Joystick, Sample};
ghost use Rattle.text.specs.Line.{hex, level, number, one_more, two_more, three_more};
ghost use Rattle.text.specs.Fronts.{seen};
ghost use Rattle.text.specs.Reading.{line_by};

use crate::numbers::{hex, level, number};
use controller::Input;
use mouse::Side;

#[tactic(auto, using(crate::proofs::Fixed::byte_bad))]
pub(crate) fn byte_line(s: &[u8]) -> Option<(Input, &[u8])>
    ensures { seen result ≡ line_by (one_more hex Byte) s.now }
{
    let [a, b, b'\n', rest @ ..] = s else {
        return None;
    };
    Some((Input::Byte(hex(*a, *b)?), rest))
}

#[tactic(auto, using(crate::proofs::Fixed::key_bad))]
pub(crate) fn key_line(s: &[u8]) -> Option<(Input, &[u8])>
    ensures { seen result ≡ line_by (two_more hex level Key) s.now }
{
    let [a, b, b'\t', last, b'\n', rest @ ..] = s else {
        return None;
    };
    let code = hex(*a, *b)?;
    let down = level(*last)?;
    Some((Input::Key { code, down }, rest))
}

pub(crate) fn button_line(side: Side, s: &[u8]) -> Option<(Input, &[u8])>
    ensures { seen result ≡ line_by (one_more level (Button side)) s.now }
{
    let [last, b'\n', rest @ ..] = s else {
        return None;
    };
    let down = level(*last)?;
    Some((Input::Button { side, down }, rest))
}

pub(crate) fn motion_line(s: &[u8]) -> Option<(Input, &[u8])>
    ensures { seen result ≡ line_by (two_more number number Move) s.now }
{
    let (dx, rest) = number(s, b'\t')?;
    let (dy, rest) = number(rest, b'\n')?;
    Some((Input::Move { dx, dy }, rest))
}

pub(crate) fn stick_line(s: &[u8]) -> Option<(Input, &[u8])>
    ensures { seen result ≡ line_by (three_more number number number Joystick) s.now }
{
    let (stick, rest) = number(s, b'\t')?;
    let (position, rest) = number(rest, b'\t')?;
    let (trigger, rest) = number(rest, b'\n')?;
    Some((
        Input::Joystick {
            stick,
            position,
            trigger,
        },
        rest,
    ))
}

pub(crate) fn sample_line(s: &[u8]) -> Option<(Input, &[u8])>
    ensures { seen result ≡ line_by (one_more number Sample) s.now }
{
    let (bit, rest) = number(s, b'\n')?;
    Some((Input::Sample(bit), rest))
}
