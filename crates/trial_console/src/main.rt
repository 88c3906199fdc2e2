// The program console on another input.
#![tactic(auto)]

use console_stream as stream;

fn main(rt: HostRuntime) {
    stream::hold(rt.stdin());
}
