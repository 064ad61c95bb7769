// decode_sheet on the most words of the most places, so that its output is long.
// One of four programs that differ in their stored input alone, since a program has one.
#![tactic(auto)]

fn main(rt: HostRuntime) {
    sheet_program::standard::decode_standard_input(&rt);
}
