// Numbers and bytes as text: decimal for a line's number, hexadecimal for what was written.
ghost use Rattle.std.specs.Prelude.{◌≡◌, ◌≤◌, ◌<◌, ◌*◌, length};
ghost use Rattle.output.specs.Writing.{Wrote};
ghost use Rattle.text.specs.Output.{decimal, four_figures, hex_figure, hex_bytes, shown};

// Four digits, zeros in front too. Digits are written here and not by a library: the kit's `itoa` costs 19 instructions more for four.
#[tactic(auto, using(crate::proofs::Blocks::four_wrote))]
fn write_four(n: u32, out: &mut [u8]) -> usize
    requires { (n < 10000) × (4 ≤ length out.old) }
    ensures { Wrote (four_figures n) result out.old out.new }
{
    let thousands = n / 1_000;
    let hundreds = n / 100;
    let tens = n / 10;
    out[0] = b'0' + thousands as u8;
    out[1] = b'0' + (hundreds - thousands * 10) as u8;
    out[2] = b'0' + (tens - hundreds * 10) as u8;
    out[3] = b'0' + (n - tens * 10) as u8;
    4
}

// One to four digits.
fn write_short(n: u32, out: &mut [u8]) -> usize
    requires { (n < 10000) × (length (decimal n) ≤ length out.old) }
    ensures { Wrote (decimal n) result out.old out.new }
{
    if n < 10 {
        out[0] = b'0' + n as u8;
        return 1;
    }
    let tens = n / 10;
    if n < 100 {
        out[0] = b'0' + tens as u8;
        out[1] = b'0' + (n - tens * 10) as u8;
        return 2;
    }
    if n < 1_000 {
        let hundreds = n / 100;
        return output::put3(
            b'0' + hundreds as u8,
            b'0' + (tens - hundreds * 10) as u8,
            b'0' + (n - tens * 10) as u8,
            out,
        );
    }
    write_four(n, out)
}

// A number in decimal. Few sessions have a hundred million lines: shorter numbers are written four digits at once, and the last eight
// digits of a longer one behind the others.
#[tactic(auto, using(crate::proofs::Blocks::block_length, crate::proofs::Blocks::block_over, crate::proofs::Blocks::long_length))]
pub fn write_decimal(n: u64, out: &mut [u8]) -> usize
    requires { length (decimal n) ≤ length out.old }
    ensures { Wrote (decimal n) result out.old out.new }
{
    if n < 10_000 {
        return write_short(n as u32, out);
    }
    if n < 100_000_000 {
        let short = n as u32;
        let high = short / 10_000;
        let k = write_short(high, out);
        return k + write_four(short - high * 10_000, &mut out[k..]);
    }
    let low = (n % 100_000_000) as u32;
    let mut at = write_decimal(n / 100_000_000, out);
    at += write_four(low / 10_000, &mut out[at..]);
    at + write_four(low % 10_000, &mut out[at..])
}

#[tactic(auto, unfolding(crate::specs::Output::hex_figure))]
fn hex_figure(d: u8) -> u8
    requires { d ≤ 15 }
    ensures { result ≡ hex_figure d }
{
    if d < 10 { b'0' + d } else { b'A' + (d - 10) }
}

// Two digits for each byte.
fn write_hex(bytes: &[u8], out: &mut [u8]) -> usize
    requires { 2 * length bytes.now ≤ length out.old }
    ensures { Wrote (hex_bytes bytes.now) result out.old out.new }
{
    let mut at = 0;
    for b in bytes {
        out[at] = hex_figure(*b / 16);
        out[at + 1] = hex_figure(*b % 16);
        at += 2;
    }
    at
}

// The bytes in hexadecimal, or that there are none.
#[tactic(auto, using(crate::proofs::Shown::shown_none, crate::proofs::Shown::shown_one, crate::proofs::Shown::shown_two))]
pub fn write_shown(bytes: &[u8], out: &mut [u8]) -> usize
    requires { length (shown bytes.now) ≤ length out.old }
    ensures { Wrote (shown bytes.now) result out.old out.new }
{
    if bytes.is_empty() {
        out[0] = b'-';
        return 1;
    }
    write_hex(bytes, out)
}
