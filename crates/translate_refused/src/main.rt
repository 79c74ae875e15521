// The program over a text that is refused.
// A program of its own, since a program has one input.
#![tactic(auto)]

fn main(rt: HostRuntime) {
    filter::run(&rt, &mut [0; 65536], &mut [0; 65535]);
}
