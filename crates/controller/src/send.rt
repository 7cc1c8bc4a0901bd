// Where bytes that fall due go: into the lent buffer or, for an event while output is paused, into the queue. What does not fit is
// refused before anything is written.
ghost use Rattle.std.specs.Prelude.{◌≡◌, ◌++◌, ◌≤◌, length, take, replicate};
ghost use Rattle.output.specs.Writing.{over};
ghost use Rattle.controller.specs.State.{queue_room, most_due};
ghost use Rattle.controller.specs.Applying.{SentAs, FlushedAs};

use crate::Refusal;
use crate::due::Due;

// The first `n` bytes are 0 again.
fn clear(queue: &mut [u8], n: usize)
    requires { n ≤ length queue.old }
    ensures { queue.new ≡ over (replicate n 0) queue.old }
{
    queue[..n].fill(0);
}

// What an event sends. Taken, it is counted where it stands in the buffer now.
pub(crate) fn send<D: Due>(
    paused: bool,
    due: &D,
    waiting: &mut usize,
    queue: &mut [u8],
    out: &mut [u8],
) -> Result<usize, Refusal>
    requires due { D.is_due due.now }
    requires counted { length (D.bytes_due due.now) ≤ most_due }
    requires waiting_in_bounds { waiting.old ≤ length queue.old }
    ensures { SentAs paused (D.bytes_due due.now) waiting.old queue.old out.old result waiting.new queue.new out.new }
{
    let count = due.count();
    if count == 0 {
        return Ok(0);
    }
    if paused {
        if queue.len() - *waiting < count {
            return Err(Refusal::QueueFull);
        }
        *waiting += due.put(&mut queue[*waiting..]);
        return Ok(0);
    }
    if out.len() < count {
        return Err(Refusal::BufferShort);
    }
    Ok(due.put(out))
}

// What an executed command sends: what waits, and then what falls due by it; and nothing waits any more.
pub(crate) fn flush<D: Due>(
    due: &D,
    waiting: &mut usize,
    queue: &mut [u8],
    out: &mut [u8],
) -> Result<usize, Refusal>
    requires due { D.is_due due.now }
    requires counted { length (D.bytes_due due.now) ≤ most_due }
    requires waiting_le_queue_room { (waiting.old ≤ queue_room) × (waiting.old ≤ length queue.old) }
    ensures { FlushedAs (take waiting.old queue.old ++ D.bytes_due due.now) waiting.old queue.old out.old result waiting.new queue.new out.new }
{
    if out.len() < *waiting + due.count() {
        return Err(Refusal::BufferShort);
    }
    let a = output::copy(&queue[..*waiting], out);
    let n = due.put(&mut out[a..]);
    clear(queue, *waiting);
    *waiting = 0;
    Ok(a + n)
}

// What a reset sends, in place of what waits, which is dropped.
pub(crate) fn replace<D: Due>(
    due: &D,
    waiting: &mut usize,
    queue: &mut [u8],
    out: &mut [u8],
) -> Result<usize, Refusal>
    requires due { D.is_due due.now }
    requires counted { length (D.bytes_due due.now) ≤ most_due }
    requires waiting_in_bounds { waiting.old ≤ length queue.old }
    ensures { FlushedAs (D.bytes_due due.now) waiting.old queue.old out.old result waiting.new queue.new out.new }
{
    if out.len() < due.count() {
        return Err(Refusal::BufferShort);
    }
    let n = due.put(out);
    clear(queue, *waiting);
    *waiting = 0;
    Ok(n)
}
