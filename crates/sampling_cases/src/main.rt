// Replays stored cases of the sampling crate and prints what it answers; `stdin` lists the cases and says how their answers were made.
#![tactic(auto)]

mod samplers;

use cases::input::answer_input;
use std::io;

fn main(rt: HostRuntime) -> io::Result<()> {
    answer_input::<196608, _>(rt.stdin(), |reader| samplers::replay(rt.stdout(), reader))
}
