// Replays stored cases of the exchange crate and prints what it answers; `stdin` lists the cases and says how their answers were made.
#![tactic(auto)]

mod readings;
mod writings;

use cases::input::answer_input;
use std::io;

// The readings, the writings.
fn main(rt: HostRuntime) -> io::Result<()> {
    answer_input::<524288, _>(rt.stdin(), |reader| {
        readings::replay(rt.stdout(), reader)?;
        writings::replay(rt.stdout(), reader)
    })
}
