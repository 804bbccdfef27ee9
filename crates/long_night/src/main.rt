// The bench program once more, on a longer night (samples/night.txt).
#![tactic(auto)]

// Stays: a program of its own beside bench, since each stored input belongs to one program; this one call is all that they share.
fn main(rt: HostRuntime) {
    stream::print_night(rt.stdin(), rt.stdout());
}
