// Cases of plans: B and a number of bytes. Answer: a line with the refusal and the number of pairs, one with the seven block sizes, one with the seven widths.
use cases::printing::{end_line, print_number};
use cases::reading::Reader;
use counting::refusal::refusal_of;
use judging::plan::{Plan, Planned, configurations};
use std::io;
use std::io::Stdout;

// The number of cases, then the cases.
pub fn replay(stdout: Stdout, reader: &mut Reader) -> io::Result<()> {
    reader.each(|reader| replay_one(stdout, reader))
}

fn replay_one(stdout: Stdout, reader: &mut Reader) -> io::Result<()> {
    let block_size = reader.size();
    let plan = configurations(block_size, reader.size());
    print_number(stdout, refusal_of(&plan))?;
    let plan = plan.unwrap_or(Plan {
        pairs: 0,
        sizes: [Planned {
            block_size: 0,
            width: 0,
        }; 7],
    });
    print_number(stdout, plan.pairs)?;
    end_line(stdout)?;
    for pair in plan.sizes {
        print_number(stdout, pair.block_size)?;
    }
    end_line(stdout)?;
    for pair in plan.sizes {
        print_number(stdout, pair.width)?;
    }
    end_line(stdout)
}
