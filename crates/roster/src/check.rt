// From text to verdict: the words of a set's text, the values of its last line, the check, one line.
ghost use Rattle.std.specs.Prelude.{◌≡◌, ◌+◌, ◌≤◌, length};
ghost use Rattle.decimal.specs.Puts.{Puts};
ghost use Rattle.input.specs.ReadText.{after};
ghost use Rattle.input.specs.Input.{Filled};
ghost use Rattle.roster.specs.RosterText.{values_key, print_numbered, print_checked, last_feed, values_of};
ghost use Rattle.roster.specs.Contract.{Room, Tells, Told};

use evaluate::Checked;

const VALUES: &[u8] = b"values=";

const YES: &[u8] = b"roster=yes\n";

const BROKEN: &[u8] = b"roster=broken,";

const REFUSED: &[u8] = b"roster=refused,";

const UNREAD: &[u8] = b"roster=unread\n";

// A start of a line, a number, the line's end.
fn put_numbered(out: &mut [u8], start: &[u8], k: usize) -> usize
    ensures { Puts out.old 0 (print_numbered start.now k) out.new result }
{
    let i = decimal::put_bytes(out, 0, start);
    let j = decimal::put_natural(out, i, k as u64);
    decimal::put_byte(out, j, b'\n')
}

fn put_checked(answer: Checked, out: &mut [u8]) -> usize
    ensures { Puts out.old 0 (print_checked answer) out.new result }
{
    match answer {
        Checked::Yes => decimal::put_bytes(out, 0, YES),
        Checked::Broken(k) => put_numbered(out, BROKEN, k),
        Checked::Refused(k) => put_numbered(out, REFUSED, k),
    }
}

// Where the last line starts: behind the last line feed.
fn line_start(lines: &[u8]) -> usize
    ensures { result ≡ last_feed lines.now }
{
    for i in (0..lines.len()).rev() {
        if lines[i] == b'\n' {
            return i + 1;
        }
    }
    0
}

// The values of a line, stored from 0 on.
fn read_values(line: &[u8], values: &mut [i32]) -> Option<usize>
    requires { length line.now ≤ 65536 }
    ensures { Filled values.old 0 (values_of (after values_key line.now)) (length line.now + 1) values.new result }
{
    if !input::has_key(line, VALUES) {
        return None;
    }
    if line.len() == 7 {
        return Some(0);
    }
    input::read_numbers(&line[7..], values, 0)
}

// The verdict on the bytes in front of the last line feed, whose words and values go into the lent slices.
fn check_lines(
    lines: &[u8],
    words: &mut [i32],
    values: &mut [i32],
    work: &mut [i32],
    out: &mut [u8],
) -> usize
    requires { Room lines.now words.old values.old work.old }
    ensures { Tells lines.now work.old work.new out.old out.new result }
{
    let a = line_start(lines);
    let Some(n) = input::words_of_text(&lines[..a], words) else {
        return decimal::put_bytes(out, 0, UNREAD);
    };
    let Some(m) = read_values(&lines[a..], values) else {
        return decimal::put_bytes(out, 0, UNREAD);
    };
    let answer = evaluate::check_roster(&words[..n], &values[..m], work);
    put_checked(answer, out)
}

// The verdict on a text: the words of its set and its values go into the lent slices.
fn check_with_room(
    text: &[u8],
    words: &mut [i32],
    values: &mut [i32],
    work: &mut [i32],
    out: &mut [u8],
) -> usize
    requires { (32768 ≤ length words.old) × (65537 ≤ length values.old) }
    ensures { Told text.now work.old work.new out.old out.new result }
{
    memory::clear(work);
    let n = text.len();
    if 65536 < n {
        return decimal::put_bytes(out, 0, UNREAD);
    }
    if n == 0 {
        return decimal::put_bytes(out, 0, UNREAD);
    }
    let e = n - 1;
    if text[e] != b'\n' {
        return decimal::put_bytes(out, 0, UNREAD);
    }
    check_lines(&text[..e], words, values, work, out)
}

// The verdict on a text, one line. Bytes past the end of `out` are dropped; the work slice is zero afterwards.
pub fn check_text(text: &[u8], work: &mut [i32], out: &mut [u8]) -> usize
    ensures { Told text.now work.old work.new out.old out.new result }
{
    let mut words = [0i32; 32768];
    let mut values = [0i32; 65537];
    check_with_room(text, &mut words, &mut values, work, out)
}
