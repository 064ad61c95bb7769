// Test vectors of the crates linear, weights, leaders, decoder, interleaving, golay and hsiao: each record of standard input is one call, and
// its line says how the call ended and what every lent list holds afterwards. The stored input and output, which reference/vectors.py makes
// from documents 01 and 02 alone, decide.
#![tactic(auto)]

mod batch_calls; // operations on a matrix and a batch of words
mod bursts; // bursts in every window of interleaved bits
mod golay_calls; // operations of the extended Golay code
mod golay_patterns; // every message and every error pattern of it
mod hsiao_calls; // operations of the (72,64) code
mod hsiao_changes; // words changed in up to three places, of this code and of those of 16, 32 and 64 data bits
mod interleaved_calls; // operations on a matrix and interleaved words
mod lent; // lists lent to a call
mod matrix_calls; // operations on a matrix
mod number_calls; // operations on two words or numbers
mod print; // what a line is made of
mod records; // what a record is made of
mod width_calls; // operations of the codes of 16, 32 and 64 data bits

// More records than the input has.
const MAX_RECORDS: usize = 100000;

// One record after another, until the input ends.
fn main(rt: HostRuntime) {
    for _ in 0..MAX_RECORDS {
        let Some(title) = records::title(&rt) else {
            return;
        };
        print::text(&rt, &title);
        records::print_call(&rt);
    }
}
