// Replays stored cases of the counting crate and prints what it answers; `stdin` lists the cases and says how their answers were made.
#![tactic(auto)]

mod blocks;
mod fitting;
mod samples;

use cases::input::answer_input;
use std::io;

// The cases of single blocks, then those of samplers.
fn main(rt: HostRuntime) -> io::Result<()> {
    answer_input::<524288, _>(rt.stdin(), |reader| {
        blocks::replay(rt.stdout(), reader)?;
        samples::replay(rt.stdout(), reader)
    })
}
