// The command codes: how many parameter bytes follow each, and what it means. Other codes have none and do nothing.
ghost use Rattle.std.specs.Prelude.{◌≡◌, ◌≤◌};
ghost use Rattle.protocol.specs.declared.Meaning.TheVariants.{OfMouse, OfStick};
ghost use Rattle.protocol.specs.Codes.{parameters_of, meaning_of};

use crate::{Inquiry, Meaning, MouseCommand, OtherCommand, StickCommand};

// By code, from 0x00 to 0x22; of 0x20 those before its data.
const PARAMETERS: [u8; 35] = [
    0, 0, 0, 0, 0, 0, 0, 1, // 0x07
    0, 4, // 0x09
    2, // 0x0A
    2, // 0x0B
    2, // 0x0C
    0, 5, // 0x0E
    0, 0, 0, 0, 0, 0, 0, 0, 1, // 0x17
    0, 6, // 0x19
    0, 6, // 0x1B
    0, 0, 0, 0, 3, // 0x20
    2, // 0x21
    2, // 0x22
];

#[tactic(auto, unfolding(crate::specs::Codes::table, crate::specs::Codes::find, crate::specs::Codes::line))]
pub fn parameters_of(code: u8) -> u8
    ensures { result ≡ parameters_of code }
{
    if code <= 0x22 {
        return PARAMETERS[code as usize];
    }
    if code == 0x80 { 1 } else { 0 }
}

// Each of the next three functions is asked only for its own range of codes.
#[tactic(auto, unfolding(crate::specs::Codes::table, crate::specs::Codes::find, crate::specs::Codes::line))]
fn mouse_command(code: u8) -> MouseCommand
    requires { (0x07 ≤ code) × (code ≤ 0x10) }
    ensures { OfMouse result ≡ meaning_of code }
{
    match code {
        0x07 => MouseCommand::SetAction,
        0x08 => MouseCommand::SetRelative,
        0x09 => MouseCommand::SetAbsolute,
        0x0A => MouseCommand::SetKeycode,
        0x0B => MouseCommand::SetThreshold,
        0x0C => MouseCommand::SetScale,
        0x0D => MouseCommand::ReportPosition,
        0x0E => MouseCommand::LoadPosition,
        0x0F => MouseCommand::OriginBottom,
        _ => MouseCommand::OriginTop,
    }
}

#[tactic(auto, unfolding(crate::specs::Codes::table, crate::specs::Codes::find, crate::specs::Codes::line))]
fn stick_command(code: u8) -> StickCommand
    requires { (0x14 ≤ code) × (code ≤ 0x1A) }
    ensures { OfStick result ≡ meaning_of code }
{
    match code {
        0x14 => StickCommand::SetEvent,
        0x15 => StickCommand::SetInterrogation,
        0x16 => StickCommand::ReportSticks,
        0x17 => StickCommand::SetMonitoring,
        0x18 => StickCommand::SetFire,
        0x19 => StickCommand::SetStickKeycode,
        _ => StickCommand::SticksOff,
    }
}

// The code of each inquiry is that of a command plus 0x80; 0x8D, 0x8E, 0x91, 0x93, 0x97 and 0x98 are no inquiries.
#[tactic(auto, unfolding(crate::specs::Codes::table, crate::specs::Codes::find, crate::specs::Codes::line))]
fn inquiry_meaning(code: u8) -> Meaning
    requires { (0x87 ≤ code) × (code ≤ 0x9A) }
    ensures { result ≡ meaning_of code }
{
    match code {
        0x87 => Meaning::Inquire(Inquiry::AskAction),
        0x88 | 0x89 | 0x8A => Meaning::Inquire(Inquiry::AskMouse),
        0x8B => Meaning::Inquire(Inquiry::AskThreshold),
        0x8C => Meaning::Inquire(Inquiry::AskScale),
        0x8F | 0x90 => Meaning::Inquire(Inquiry::AskOrigin),
        0x92 => Meaning::Inquire(Inquiry::AskMouseOff),
        0x94 | 0x95 | 0x96 | 0x99 => Meaning::Inquire(Inquiry::AskStick),
        0x9A => Meaning::Inquire(Inquiry::AskSticksOff),
        _ => Meaning::Nothing,
    }
}

#[tactic(auto, unfolding(crate::specs::Codes::table, crate::specs::Codes::find, crate::specs::Codes::line))]
pub fn meaning_of(code: u8) -> Meaning
    ensures { result ≡ meaning_of code }
{
    match code {
        0x07..=0x10 => Meaning::OfMouse(mouse_command(code)),
        0x11 => Meaning::OfOther(OtherCommand::Resume),
        0x12 => Meaning::OfOther(OtherCommand::MouseOff),
        0x13 => Meaning::Pause,
        0x14..=0x1A => Meaning::OfStick(stick_command(code)),
        0x1B => Meaning::OfOther(OtherCommand::SetClock),
        0x1C => Meaning::OfOther(OtherCommand::ReportClock),
        0x20 | 0x21 | 0x22 => Meaning::Memory,
        0x80 => Meaning::Reset,
        0x87..=0x9A => inquiry_meaning(code),
        _ => Meaning::Nothing,
    }
}
