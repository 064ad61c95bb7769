// Reads one code sheet from standard input and prints the decoded words, or the one line of a refusal.
// One of four programs that differ in their stored input alone, since a program has one.
#![tactic(auto)]

fn main(rt: HostRuntime) {
    sheet_program::standard::decode_standard_input(&rt);
}
