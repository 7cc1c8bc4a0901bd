// A saved state as one line of text: written, and read again.
#![tactic(auto)]

mod put;
mod scan;

ghost use Rattle.std.specs.Prelude.{◌≡◌};
ghost use Rattle.controller.specs.State.{IsState, queue_room};
ghost use Rattle.saved.specs.Line.{line_of};
ghost use Rattle.saved.specs.Load.{load};
ghost use Rattle.saved.specs.Answers.{save_number, load_number, loaded, begun, SavedAs};

use controller::State;

// A buffer is too short for the line of a state.
#[derive(Clone, Copy, Debug, PartialEq, Eq)]
pub struct BufferShort;

// A line is none that a state writes.
#[derive(Clone, Copy, Debug, PartialEq, Eq)]
pub struct NoState;

// The state that a line is of. A line that is refused hands power-up back.
#[derive(Clone, Copy, Debug, PartialEq, Eq)]
pub struct Loaded {
    pub state: State,
    pub answer: Result<(), NoState>,
}

// Room for every line: its numbers, the map of the keys, two digits for each byte of a full queue, and the line feed.
pub const LINE_ROOM: usize = put::FIELDS_ROOM + scan::MAP_WIDTH + 2 * State::QUEUE_ROOM + 1;

// The number that tells what a write came to.
pub fn save_number(answer: Result<usize, BufferShort>) -> u8
    ensures { result ≡ save_number answer }
{
    match answer {
        Ok(_) => 0,
        Err(BufferShort) => 4,
    }
}

// The number that tells what a reading came to.
pub fn load_number(answer: Result<(), NoState>) -> u8
    ensures { result ≡ load_number answer }
{
    match answer {
        Ok(()) => 0,
        Err(NoState) => 5,
    }
}

// A state's line, if the buffer has room for it: how many bytes it has.
pub fn write(state: State, out: &mut [u8]) -> Result<usize, BufferShort>
    requires { IsState state }
    ensures { SavedAs (line_of state) out.old result out.new }
{
    let mut line = [0; LINE_ROOM];
    let n = put::put_line(state, &mut line);
    if out.len() < n {
        return Err(BufferShort);
    }
    out[..n].copy_from_slice(&line[..n]);
    Ok(n)
}

// What a reading hands back, of the state if there is one.
fn hand_back(state: Option<State>) -> Loaded
    ensures { result ≡ loaded state }
{
    match state {
        Some(state) => Loaded {
            state,
            answer: Ok(()),
        },
        None => Loaded {
            state: State::power_up(),
            answer: Err(NoState),
        },
    }
}

// The state of a line, its line feed included, if it is one that a state writes.
pub fn read(line: &[u8]) -> Loaded
    ensures told { result ≡ loaded (load queue_room line.now) }
    ensures keeps { IsState result.state }
{
    hand_back(scan::state(line))
}

// The state that a session begins with: a minus stands for power-up, any other line is read.
pub fn begun(line: &[u8]) -> Loaded
    ensures told { result ≡ begun line.now }
    ensures keeps { IsState result.state }
{
    if scan::is_minus(line) {
        return hand_back(Some(State::power_up()));
    }
    read(line)
}
