// Reads records from standard input and prints a line for each.
#![tactic(auto)]

use record_stream as stream;

fn main(rt: HostRuntime) {
    stream::list(rt.stdin());
}
