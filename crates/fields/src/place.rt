// The place of each field in the list of numbers. Field n of docs/SAVED.md stands at n - 1.

// The mouse: its mode, the maximum of the absolute mode, the deltas of the keycode mode, and the rest of its settings.
pub const MOUSE_MODE: usize = 0;

pub const MAXIMUM_X: usize = 1;

pub const MAXIMUM_Y: usize = 2;

pub const DELTA_X: usize = 3;

pub const DELTA_Y: usize = 4;

pub const ACTION: usize = 5;

pub const THRESHOLD_X: usize = 6;

pub const THRESHOLD_Y: usize = 7;

pub const SCALE_X: usize = 8;

pub const SCALE_Y: usize = 9;

pub const BOTTOM: usize = 10;

pub const MOUSE_ON: usize = 11;

// The joysticks: their mode, the rate of monitoring, and the breakpoint and the repeats before and after it of the keycode mode.
pub const STICK_MODE: usize = 12;

pub const RATE: usize = 13;

pub const BREAKPOINT_X: usize = 14;

pub const BREAKPOINT_Y: usize = 15;

pub const BEFORE_X: usize = 16;

pub const BEFORE_Y: usize = 17;

pub const AFTER_X: usize = 18;

pub const AFTER_Y: usize = 19;

// What is on, and whether output is paused.
pub const STICKS_ON: usize = 20;

pub const PORT0: usize = 21;

pub const PAUSED: usize = 22;

// Where the mouse is, the motion that is held, its buttons and their latches.
pub const PLACE_X: usize = 23;

pub const PLACE_Y: usize = 24;

pub const HELD_X: usize = 25;

pub const HELD_Y: usize = 26;

pub const LEFT: usize = 27;

pub const RIGHT: usize = 28;

pub const LATCHES: usize = 29;

// The sticks, the age and the wait of an axis that repeats, and monitoring.
pub const STICK_0: usize = 30;

pub const STICK_1: usize = 31;

pub const AGE_X: usize = 32;

pub const WAIT_X: usize = 33;

pub const AGE_Y: usize = 34;

pub const WAIT_Y: usize = 35;

pub const TICKS: usize = 36;

pub const SAMPLES: usize = 37;

pub const BITS: usize = 38;

// The clock.
pub const YEAR: usize = 39;

pub const MONTH: usize = 40;

pub const DAY: usize = 41;

pub const HOUR: usize = 42;

pub const MINUTE: usize = 43;

pub const SECOND: usize = 44;

pub const HUNDREDTH: usize = 45;

// A command of which a byte is still to come: its code, how many parameters have come, these, and the data to come.
pub const CODE: usize = 46;

pub const COME: usize = 47;

pub const PARAMETER_1: usize = 48;

pub const PARAMETER_2: usize = 49;

pub const PARAMETER_3: usize = 50;

pub const PARAMETER_4: usize = 51;

pub const PARAMETER_5: usize = 52;

pub const PARAMETER_6: usize = 53;

pub const PENDING: usize = 54;
