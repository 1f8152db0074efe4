// Makes the sweeps of stored cases and prints what they answer; `stdin` lists the cases and says how their answers were made.
#![tactic(auto)]

mod recordings;
mod sweeps;

use cases::input::answer_input;
use std::io;

fn main(rt: HostRuntime) -> io::Result<()> {
    answer_input::<131072, _>(rt.stdin(), |reader| sweeps::answer_all(rt.stdout(), reader))
}
