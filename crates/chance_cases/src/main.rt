// Replays stored cases of the bracket and prints what it answers; `stdin` lists the cases and says how their answers were made.
#![tactic(auto)]

mod brackets;

use cases::input::answer_input;
use std::io;

fn main(rt: HostRuntime) -> io::Result<()> {
    answer_input::<65536, _>(rt.stdin(), |reader| brackets::replay(rt.stdout(), reader))
}
