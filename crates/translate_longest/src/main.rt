// The program over the longest input that it takes, 65,535 bytes, all of them plain.
// A program of its own, since a program has one input.
#![tactic(auto)]

fn main(rt: HostRuntime) {
    filter::run(&rt, &mut [0; 65536], &mut [0; 65535]);
}
