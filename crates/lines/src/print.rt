// The lines of the output. Each writer puts its bytes behind those that were put before.
ghost use Rattle.std.specs.Prelude.{[], ◌∷◌, ◌++◌, ◌+◌, ◌-◌, ◌*◌, ◌/◌, ◌≤◌, length, ◌≡◌};
ghost use Rattle.lines.specs.Appended.{Appends};
ghost use Rattle.lines.specs.Decimal.{decimal};
ghost use Rattle.lines.specs.Line.{refused_line, code_line, digits_of, ending};
ghost use Rattle.lines.specs.Closing.{closing_line};
ghost use Rattle.lines.specs.Inner.Room.{number_room, code_room, ending_room, line_room, closing_room};
ghost use Rattle.lines.specs.Inner.Wrote.{Room, Wrote};
ghost use Rattle.lines.specs.Put.{max_output, Put};
ghost use Rattle.lines.specs.Batch.{slot_line, slot_lines, batch_lines, Printable};
ghost use Rattle.tally.specs.Slots.{slot_outcome};
ghost use Rattle.words.specs.Limits.{width};

use tally::{FAR, Tally, tally_of};
use words::limits::{MAX_PLACES, MAX_WORDS};

// Room for the longest output.
pub const MAX_OUTPUT: usize = 20480;

// The characters that are printed besides digits and texts.
const SPACE: u8 = 32;

const LINE_FEED: u8 = 10;

// The digit 0; the others follow it.
const ZERO: u8 = 48;

// The first eight digits of a word, one to a byte: its low byte is drawn apart into halves, quarters and single places.
fn eight_digits(w: u32) -> [u8; 8]
    ensures { result ≡ digits_of 8 w }
{
    let a = u64::from(w & 255);
    let b = (a | a << 28) & 0x0000000F0000000F;
    let c = (b | b << 14) & 0x0003000300030003;
    let d = (c | c << 7) & 0x0101010101010101;
    (d | 0x3030303030303030).to_le_bytes()
}

// Digits of a word, eight at a time. The last eight end at the last place, so that some of them may be put twice.
fn fill_eights(digits: &mut [u8], w: u32)
    requires { (8 ≤ length digits.old) × (length digits.old ≤ width) }
    ensures { digits.new ≡ digits_of (length digits.old) w }
{
    let last = digits.len() - 8;
    for p in (0..last).step_by(8) {
        digits[p..p + 8].copy_from_slice(&eight_digits(w >> p));
    }
    digits[last..].copy_from_slice(&eight_digits(w >> last));
}

// As many digits of a word as there are slots, place 0 first: in groups of eight, or one by one where there are fewer.
fn fill_digits(digits: &mut [u8], w: u32)
    requires { length digits.old ≤ width }
    ensures { digits.new ≡ digits_of (length digits.old) w }
{
    if 8 <= digits.len() {
        return fill_eights(digits, w);
    }
    for (p, digit) in digits.iter_mut().enumerate() {
        *digit = ZERO + ((w >> p) & 1) as u8;
    }
}

// The digits of a number at the front of a list, those of its tenth and then the last one; answers how many. The compiler divides by 10
// without a division. No Display: a `fmt::Write` for the writer is longer than this, and a number of one digit is one store, and returns
// before a register is saved.
fn fill_decimal(out: &mut [u8], x: usize) -> usize
    requires { length (decimal x) ≤ length out.old }
    ensures { Appends out.old 0 (decimal x) out.new result }
{
    if x < 10 {
        out[0] = ZERO + x as u8;
        return 1;
    }
    let more = fill_decimal(out, x / 10);
    out[more] = ZERO + (x % 10) as u8;
    more + 1
}

// A list, and the position behind what was put into it.
#[derive(Drop)]
struct Writer<'a> {
    out: &'a mut [u8],
    at: usize,
}

impl Writer<'_> {
    // One byte.
    fn put(&mut self, b: u8)
        requires { Room 1 self.old }
        ensures { Wrote self.old (b ∷ []) self.new }
    {
        self.out[self.at] = b;
        self.at += 1;
    }

    // The bytes of a text.
    fn put_text(&mut self, text: &[u8])
        requires { Room (length text.now) self.old }
        ensures { Wrote self.old text.now self.new }
    {
        let end = self.at + text.len();
        self.out[self.at..end].copy_from_slice(text);
        self.at = end;
    }

    // The digits of a number.
    fn put_decimal(&mut self, x: usize)
        requires { Room (length (decimal x)) self.old }
        ensures { Wrote self.old (decimal x) self.new }
    {
        let digits = fill_decimal(&mut self.out[self.at..], x);
        self.at += digits;
    }

    // A number and the character after it.
    fn put_number(&mut self, x: usize, after: u8)
        requires { Room number_room self.old }
        ensures wrote { Wrote self.old (decimal x ++ (after ∷ [])) self.new }
        ensures upper_bound { self.new.at ≤ self.old.at + number_room }
    {
        self.put_decimal(x);
        self.put(after);
    }

    // A word and the number after it.
    fn put_named(&mut self, name: &[u8], x: usize, after: u8)
        requires { Room (length name.now + number_room) self.old }
        ensures wrote { Wrote self.old (name.now ++ (decimal x ++ (after ∷ []))) self.new }
        ensures upper_bound { self.new.at ≤ self.old.at + length name.now + number_room }
    {
        self.put_text(name);
        self.put_number(x, after);
    }

    // n, k, dmin and t.
    fn put_code(&mut self, n: u32, k: u32, d: u32)
        requires { Room code_room self.old }
        ensures wrote { Wrote self.old (code_line n k d) self.new }
        ensures upper_bound { self.new.at ≤ self.old.at + code_room }
    {
        self.put_number(n as usize, SPACE);
        self.put_number(k as usize, SPACE);
        self.put_number(d as usize, SPACE);
        self.put_number(half_below(d) as usize, LINE_FEED);
    }

    // The n digits of a word, place 0 leftmost. That n is a width stands in three contracts: a type for it would be made for one call.
    fn put_digits(&mut self, n: u32, w: u32)
        requires { (n ≤ width) × Room n self.old }
        ensures { Wrote self.old (digits_of n w) self.new }
    {
        let end = self.at + n as usize;
        fill_digits(&mut self.out[self.at..end], w);
        self.at = end;
    }

    // The count, one digit where it is below 10, or "far".
    fn put_ending(&mut self, count: u8)
        requires { Room ending_room self.old }
        ensures wrote { Wrote self.old (ending (slot_outcome count)) self.new }
        ensures upper_bound { self.new.at ≤ self.old.at + ending_room }
    {
        if count < 10 {
            self.put(ZERO + count);
        } else if count == FAR {
            self.put_text(b"far");
        } else {
            self.put_decimal(usize::from(count));
        }
    }

    // The line of a word: its digits, a blank, and how it ended.
    fn put_line(&mut self, n: u32, c: u32, count: u8)
        requires { (n ≤ width) × Room line_room self.old }
        ensures wrote { Wrote self.old (slot_line n c count) self.new }
        ensures upper_bound { self.new.at ≤ self.old.at + line_room }
    {
        self.put_digits(n, c);
        self.put(SPACE);
        self.put_ending(count);
        self.put(LINE_FEED);
    }

    // A line for each slot of the lists.
    fn put_lines(&mut self, n: u32, codewords: &[u32], counts: &[u8])
        requires { (n ≤ width) × (length counts.now ≡ length codewords.now) × Room (line_room * length codewords.now) self.old }
        ensures wrote { Wrote self.old (slot_lines n codewords.now counts.now) self.new }
        ensures upper_bound { self.new.at ≤ self.old.at + line_room * length codewords.now }
    {
        for (&c, &count) in codewords.iter().zip(counts) {
            self.put_line(n, c, count);
        }
    }

    // The closing line.
    fn put_closing(&mut self, t: Tally)
        requires { Room closing_room self.old }
        ensures { Wrote self.old (closing_line t) self.new }
    {
        self.put_named(b"clean ", t.clean as usize, SPACE);
        self.put_named(b"mended ", t.mended as usize, SPACE);
        self.put_named(b"far ", t.far as usize, SPACE);
        self.put_named(b"places ", t.places as usize, LINE_FEED);
    }
}

// t, the largest radius that a minimum distance d admits; 0 where d is 0.
fn half_below(d: u32) -> u32
    ensures { result ≡ (d - 1) / 2 }
{
    d.saturating_sub(1) / 2
}

// The one line of a refusal, into a list that holds the longest output; a shorter one is left as it was.
pub fn put_refusal(out: &mut [u8], number: u32, value: usize) -> Option<usize>
    ensures { Put (max_output ≤ length out.old) out.old (refused_line number value) out.new result }
{
    if out.len() < MAX_OUTPUT {
        return None;
    }
    let mut writer = Writer { out, at: 0 };
    writer.put_named(b"refused ", number as usize, SPACE);
    writer.put_number(value, LINE_FEED);
    Some(writer.at)
}

// n, k and d stand beside the lists, since a matrix has rows, which are not printed.
// All lines of a batch, into a list that holds the longest output; one that cannot be printed leaves the list as it was.
pub fn put_batch(
    out: &mut [u8],
    n: u32,
    k: u32,
    d: u32,
    codewords: &[u32],
    counts: &[u8],
) -> Option<usize>
    ensures { Put (Printable n codewords.now counts.now out.old)
        out.old (batch_lines n k d codewords.now counts.now) out.new result }
{
    if MAX_PLACES < n {
        return None;
    }
    if counts.len() != codewords.len() {
        return None;
    }
    if MAX_WORDS < codewords.len() {
        return None;
    }
    if out.len() < MAX_OUTPUT {
        return None;
    }
    let mut writer = Writer { out, at: 0 };
    writer.put_code(n, k, d);
    writer.put_lines(n, codewords, counts);
    writer.put_closing(tally_of(counts));
    Some(writer.at)
}
