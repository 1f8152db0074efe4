// Replays stored cases of the scoring crate and prints what it answers; `stdin` lists the cases and says how their answers were made.
#![tactic(auto)]

mod roots;
mod scores;

use cases::input::answer_input;
use std::io;

// First the roots, then the scores.
fn main(rt: HostRuntime) -> io::Result<()> {
    answer_input::<262144, _>(rt.stdin(), |reader| {
        roots::replay(rt.stdout(), reader)?;
        scores::replay(rt.stdout(), reader)
    })
}
