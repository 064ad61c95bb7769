// One code sheet from standard input; the decoded words, or the one line of a refusal, to standard output.
ghost use Rattle.std.specs.Prelude.{◌<◌, length};
ghost use Rattle.io.specs.Counts.{IsPrefixLen};
ghost use Rattle.sheet.specs.Sheet.{max_sheet};
ghost use Rattle.sheet_program.specs.Inner.Enough.{Enough};

use lines::MAX_OUTPUT;
use sheet::MAX_SHEET;
use sheet_run::run;
use std::io::Read;
use streams::read_full;

// A line on standard error, after the name of the program. Where that cannot be written either, nobody can be told.
fn complain(rt: &impl Eprint, text: &str) {
    let _ = eprint!(rt; "decode_sheet: {text}");
}

// Reads until the input ends or the buffer is full; answers how many bytes there are. A buffer with room for one byte more than a sheet
// may have holds enough of any input.
fn read_input<R: Read>(input: &mut R, bytes: &mut [u8]) -> usize
    requires { max_sheet < length bytes.old }
    ensures prefix_len { IsPrefixLen result bytes.new }
    ensures enough { Enough (length bytes.old) }
{
    read_full(input, bytes)
}

// Whether the input has ended: a further read finds nothing and does not fail.
fn ended<R: Read>(input: &mut R) -> bool {
    let mut one = [0u8; 1];
    matches!(input.read(&mut one), Ok(0))
}

// The output is handed over whole, so that no line is cut where the system takes it in one call.
fn print_run(rt: &(impl Print + Eprint), bytes: &[u8]) {
    let mut out = [0u8; MAX_OUTPUT];
    let length = run(bytes, &mut out).unwrap();
    if rt.write_all(&out[..length]).is_err() {
        complain(rt, "standard output cannot be written\n");
    }
}

// The whole program. No contract can speak of what is read or written: `run` states the output of the bytes that it is given, and that
// these are the input and that the output is what was printed is seen by running it.
pub fn decode_standard_input(rt: &(impl Input + Print + Eprint)) {
    let mut input = rt.reader();
    let mut bytes = [0u8; MAX_SHEET + 1];
    let got = read_input(&mut input, &mut bytes);
    if got <= MAX_SHEET && !ended(&mut input) {
        complain(rt, "standard input cannot be read\n");
        return;
    }
    print_run(rt, &bytes[..got]);
}
