// Cases of the root: a pattern. Answer: the pattern of its root.
use cases::patterns::{double, print_double};
use cases::printing::end_line;
use cases::reading::Reader;
use scoring::root::root;
use std::io;
use std::io::Stdout;

// The number of cases, then the cases.
pub fn replay(stdout: Stdout, reader: &mut Reader) -> io::Result<()> {
    reader.each(|reader| {
        print_double(stdout, root(double(reader.number())))?;
        end_line(stdout)
    })
}
