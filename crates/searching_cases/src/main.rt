// Replays stored cases of ranks, rankings and searches and prints what our crates answer; `stdin` lists the cases and says how their answers were made.
#![tactic(auto)]

mod rankings;
mod ranks;
mod searches;

use cases::input::answer_input;
use std::io;

// The ranks of subsets, the rankings of counts, the searches.
fn main(rt: HostRuntime) -> io::Result<()> {
    answer_input::<655360, _>(rt.stdin(), |reader| {
        ranks::replay(rt.stdout(), reader)?;
        rankings::replay(rt.stdout(), reader)?;
        searches::replay(rt.stdout(), reader)
    })
}
