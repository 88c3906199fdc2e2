// Drives one unit from a script on standard input and prints the answers.
#![tactic(auto)]

use console_stream as stream;

fn main(rt: HostRuntime) {
    stream::hold(rt.stdin());
}
