// Makes the replays of stored cases and prints what is answered and left; `stdin` lists the cases and says how their answers were made.
#![tactic(auto)]

mod replays;

use cases::input::answer_input;
use std::io;

fn main(rt: HostRuntime) -> io::Result<()> {
    answer_input::<196608, _>(
        rt.stdin(),
        |reader| replays::answer_all(rt.stdout(), reader),
    )
}
