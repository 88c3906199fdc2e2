// The program verdict on another input.
#![tactic(auto)]

use record_stream as stream;

fn main(rt: HostRuntime) {
    stream::list(rt.stdin());
}
