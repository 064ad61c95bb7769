// decode_sheet on one byte more than a sheet may have.
// One of four programs that differ in their stored input alone, since a program has one.
#![tactic(auto)]

fn main(rt: HostRuntime) {
    sheet_program::standard::decode_standard_input(&rt);
}
