// Replays stored cases of the judging crate and prints what it answers; `stdin` lists the cases and says how their answers were made.
#![tactic(auto)]

mod findings;
mod plans;
mod splits;

use cases::input::answer_input;
use std::io;

// The splits, the plans, the findings.
fn main(rt: HostRuntime) -> io::Result<()> {
    answer_input::<393216, _>(rt.stdin(), |reader| {
        splits::replay(rt.stdout(), reader)?;
        plans::replay(rt.stdout(), reader)?;
        findings::replay(rt.stdout(), reader)
    })
}
