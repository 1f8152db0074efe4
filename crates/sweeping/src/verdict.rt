// What a sweep says of a recording.
ghost use Rattle.std.specs.Prelude.{◌≡◌};
ghost use Rattle.sweeping.specs.Verdict.{verdict_of};

// Rejected: some pair's chance is below its share of the level. Undecided: some bracket leaves that open. Not rejected: none does.
#[derive(Clone, Copy, Debug, PartialEq, Eq)]
pub enum Verdict {
    Rejected = 1,
    Undecided = 0,
    NotRejected = 2,
}

// The verdict, by whether a bracket lies below the share and whether one reaches down below it.
pub fn verdict_of(rejected: bool, below: bool) -> Verdict
    ensures { result ≡ verdict_of rejected below }
{
    if rejected {
        return Verdict::Rejected;
    }
    if below {
        return Verdict::Undecided;
    }
    Verdict::NotRejected
}
