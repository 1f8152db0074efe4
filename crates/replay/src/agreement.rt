// Whether two searches found the same.
ghost use Rattle.std.specs.Prelude.{◌≡◌};
ghost use Rattle.replay.specs.Agreement.{same_finding};

use searching::finding::Finding;

// Whether two findings are the same in every field, their bits up to the width: entries past it are not read.
// Kept: a derived == would compare those entries too, which `same_finding` of specs/Agreement.antt does not.
pub fn same_finding(a: Finding, b: Finding) -> bool
    ensures { result ≡ same_finding a b }
{
    if a.block_size != b.block_size
        || a.width != b.width
        || a.division != b.division
        || a.low_first != b.low_first
    {
        return false;
    }
    // No more bits than an array holds.
    let width = a.width.min(20);
    a.bits[..width] == b.bits[..width] && a.z == b.z
}
