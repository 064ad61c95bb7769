// Many sheets: standard input has records of a title (its length in one byte) and a sheet (its length in two bytes, high byte
// first); each title is printed, and after it what the run gives for its sheet.
#![tactic(auto)]

use lines::MAX_OUTPUT;
use sheet_run::run;
use streams::read_full;

// More records than the input has.
const MAX_RECORDS: usize = 100000;

const MAX_BYTES: usize = 8192;

// The length of the next title, if there is one.
fn title_length(rt: &impl Input) -> Option<u8> {
    let mut head = [0u8; 1];
    let got = read_full(&mut rt.reader(), &mut head);
    (got != 0).then_some(head[0])
}

// The next so many bytes, at the start of the buffer; none where it is shorter.
fn read_part<'a>(rt: &impl Input, buffer: &'a mut [u8], size: usize) -> &'a [u8] {
    let asked = if size <= buffer.len() { size } else { 0 };
    let got = read_full(&mut rt.reader(), &mut buffer[..asked]);
    &buffer[..got]
}

// What is printed is seen in what the program writes: a failed write shows there as missing.
fn write(rt: &impl Print, bytes: &[u8]) {
    let _ = rt.write_all(bytes);
}

// The title on a line of its own.
fn print_title(rt: &(impl Input + Print), length: u8) {
    let mut title = [0u8; 255];
    write(rt, read_part(rt, &mut title, usize::from(length)));
    write(rt, b"\n");
}

// What the run gives for the sheet.
fn print_run(rt: &(impl Input + Print)) {
    let mut head = [0u8; 2];
    read_full(&mut rt.reader(), &mut head);
    let mut bytes = [0u8; MAX_BYTES];
    let sheet = read_part(rt, &mut bytes, usize::from(u16::from_be_bytes(head)));
    let mut out = [0u8; MAX_OUTPUT];
    let length = run(sheet, &mut out).unwrap();
    write(rt, &out[..length]);
}

// One record after another, until the input ends.
fn main(rt: HostRuntime) {
    for _ in 0..MAX_RECORDS {
        let Some(length) = title_length(&rt) else {
            return;
        };
        print_title(&rt, length);
        print_run(&rt);
    }
}
