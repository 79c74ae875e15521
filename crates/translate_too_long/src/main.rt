// The program over a byte more than it takes. The text ends early, and the bytes behind its end count all the same.
// A program of its own, since a program has one input.
#![tactic(auto)]

fn main(rt: HostRuntime) {
    filter::run(&rt, &mut [0; 65536], &mut [0; 65535]);
}
