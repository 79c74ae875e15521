// The program: translates standard input to standard output.
#![tactic(auto)]

fn main(rt: HostRuntime) {
    filter::run(&rt, &mut [0; 65536], &mut [0; 65535]);
}
