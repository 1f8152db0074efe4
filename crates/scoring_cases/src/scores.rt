// Cases of the score: n, c, i and k. Answer: the patterns of z at the share i / 2 ^ k and of |z|.
use cases::patterns::print_double;
use cases::printing::end_line;
use cases::reading::Reader;
use scoring::halves::share;
use scoring::score::{absolute, z_score};
use std::io;
use std::io::Stdout;

// The number of cases, then the cases.
pub fn replay(stdout: Stdout, reader: &mut Reader) -> io::Result<()> {
    reader.each(|reader| replay_one(stdout, reader))
}

fn replay_one(stdout: Stdout, reader: &mut Reader) -> io::Result<()> {
    let mut row = [0u32; 3];
    reader.fill(&mut row, u32::MAX);
    let [n, c, i] = row;
    let z = z_score(n, c, share(i, reader.at_most(20)));
    print_double(stdout, z)?;
    print_double(stdout, absolute(z))?;
    end_line(stdout)
}
