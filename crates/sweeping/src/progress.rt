// How far a sweep has come.
ghost use Rattle.std.specs.Prelude.{◌≡◌, ◌<◌};
ghost use Rattle.sweeping.specs.Progress.{none_tested, begun, lowest_of, counted};

use crate::pair::Tested;
use searching::finding::no_finding;

// How many pairs were tested; whether the last of them was rejected, which ends the sweep; whether a bracket reaches down below the share; the pair with
// the lowest lower end, and the last one.
// Kept: two flags and no enum, since `begun` and `counted` set them each by itself and `verdict_of` and `number_with`, on which `SweepsConclude` stands, take them so.
// Kept: `begun` and `lowest_of`, on which `SweepsConclude` stands, have a test with every field 0 where none was made, and no Option.
#[derive(Clone, Copy)]
pub struct Progress {
    pub tested: usize,
    pub rejected: bool,
    pub below: bool,
    pub best: Tested,
    pub last: Tested,
}

// No pair tested yet.
pub fn begun() -> Progress
    ensures { result ≡ begun }
{
    Progress {
        tested: 0,
        rejected: false,
        below: false,
        best: none(),
        last: none(),
    }
}

// One pair more.
pub fn counted(progress: Progress, tested: Tested, share: u64) -> Progress
    requires { progress.tested < 9223372036854775808 }
    ensures { result ≡ counted share progress tested }
{
    Progress {
        tested: progress.tested + 1,
        rejected: tested.high < share,
        below: progress.below || tested.low < share,
        best: lowest_of(progress, tested),
        last: tested,
    }
}

// The one with the lower lower end, the earlier where they are equal.
fn lowest_of(progress: Progress, tested: Tested) -> Tested
    ensures { result ≡ lowest_of progress tested }
{
    if progress.tested == 0 || tested.low < progress.best.low {
        return tested;
    }
    progress.best
}

// Every field 0.
// Kept: `none_tested` is the test in `begun`, and beside a refusal in `refused_sweep`; a derived default has no such definition.
pub fn none() -> Tested
    ensures { result ≡ none_tested }
{
    Tested {
        finding: no_finding(),
        blocks: 0,
        positive: 0,
        low: 0,
        high: 0,
    }
}
