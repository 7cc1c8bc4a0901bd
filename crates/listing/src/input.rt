// A line of input: the bytes that it gives.
ghost use Rattle.std.specs.Prelude.{◌≡◌, true, false, ◌*◌, ◌≤◌, length, MatchOption};
ghost use Rattle.output.specs.Writing.{Wrote};
ghost use Rattle.text.specs.Fronts.{first};
ghost use Rattle.listing.specs.Input.{is_number, is_hex, spelt, field_bytes, has_tab, behind, answer_bytes, longest, line_of, ReadsBytes};

// The most bytes of a good line, without its line feed.
pub const LONGEST: usize = 32_767;

// What stands before the first tab of a text, and what stands behind it.
fn at_tab(text: &[u8]) -> Option<(&[u8], &[u8])>
    ensures { MatchOption result (has_tab text.now ≡ false) (λ parts. (has_tab text.now ≡ true) × (parts.0.now ≡ first text.now) × (parts.1.now ≡ behind text.now)) }
{
    let tab = text.iter().position(|b| *b == b'\t')?;
    Some((&text[..tab], &text[tab + 1..]))
}

// Whether a field is one or more decimal digits.
fn is_number(field: &[u8]) -> bool
    ensures { result ≡ is_number field.now }
{
    !field.is_empty() && field.iter().all(|b| b.is_ascii_digit())
}

// Whether a field is two hexadecimal digits for each byte, and nothing else.
fn is_hex(field: &[u8]) -> bool
    ensures { result ≡ is_hex field.now }
{
    field.len() % 2 == 0 && field.iter().all(|b| text::hex_digit(*b).is_some())
}

// The bytes that such digits spell.
#[tactic(auto, using(crate::proofs::Reading::spelt_start, crate::proofs::Reading::spelt_on))]
fn spell(field: &[u8], out: &mut [u8]) -> usize
    requires { (is_hex field.now ≡ true) × (length field.now ≤ 2 * length out.old) }
    ensures { Wrote (spelt field.now) result out.old out.new }
{
    let n = field.len() / 2;
    for i in 0..n {
        // All are digits. With a value for none, and no unwrap, the loop has no branch, and many bytes are spelt at once.
        let high = text::hex_digit(field[2 * i]).unwrap_or(16);
        let low = text::hex_digit(field[2 * i + 1]).unwrap_or(16);
        out[i] = 16 * high + low;
    }
    n
}

// The bytes of a field; `-` is none.
#[tactic(auto, using(crate::proofs::Lines::read_none, crate::proofs::Lines::read_bad, crate::proofs::Lines::read_spelt, crate::proofs::Lines::field_minus, crate::proofs::Lines::field_empty, crate::proofs::Lines::field_hex, crate::proofs::Lines::field_bad))]
fn field_bytes(field: &[u8], out: &mut [u8]) -> Option<usize>
    requires { length field.now ≤ 2 * length out.old }
    ensures { ReadsBytes (field_bytes field.now) result out.old out.new }
{
    if field == b"-".as_slice() {
        return Some(0);
    }
    if field.is_empty() || !is_hex(field) {
        return None;
    }
    Some(spell(field, out))
}

// The bytes of a line of the text program's output, of which this stands behind the first field and its tab.
#[tactic(auto, using(crate::proofs::Lines::read_bad, crate::proofs::Lines::read_as, crate::proofs::Lines::answer_short, crate::proofs::Lines::answer_number, crate::proofs::Lines::answer_bad))]
fn answer_bytes(rest: &[u8], out: &mut [u8]) -> Option<usize>
    requires { length rest.now ≤ 2 * length out.old }
    ensures { ReadsBytes (answer_bytes rest.now) result out.old out.new }
{
    let (answer, field) = at_tab(rest)?;
    if !is_number(answer) {
        return None;
    }
    field_bytes(field, out)
}

// The bytes that a line gives, to the start of `out`: how many they are. A bad line gives none, and writes nothing there.
#[tactic(auto, using(crate::proofs::Lines::read_bad, crate::proofs::Lines::line_long))]
pub(crate) fn read_bytes(line: &[u8], out: &mut [u8]) -> Option<usize>
    requires { longest ≤ 2 * length out.old }
    ensures { ReadsBytes (line_of line.now) result out.old out.new }
{
    if LONGEST < line.len() {
        return None;
    }
    if line == b"line\tanswer\tbytes".as_slice() {
        return Some(0);
    }
    let Some((number, rest)) = at_tab(line) else {
        return field_bytes(line, out);
    };
    if !is_number(number) {
        return None;
    }
    answer_bytes(rest, out)
}
