// The bench program: one byte, the site count, then records, from standard input; a line for each to standard output.
#![tactic(auto)]

fn main(rt: HostRuntime) {
    stream::print_night(rt.stdin(), rt.stdout());
}
