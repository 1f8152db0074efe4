// The sheet of an input, as a caller meets it.
ghost use Rattle.std.specs.Prelude.{◌≡◌};
ghost use Rattle.counting.specs.Refusal.{refusal_of};
ghost use Rattle.sheet.specs.Lines.{Printed};
ghost use Rattle.sheet.specs.Refusal.{sheet_refusal};
ghost use Rattle.sheet.specs.Sheet.{sheet_of};

use crate::header::{field_at, input_refusal};
use crate::judgement::put_judged;
use crate::lines::put_refusal;
use counting::refusal::Refusal;
use judging::split::{first_part, second_part, split_refusal};
use subsets::bits::valid_width;

// Writes the sheet of an input, a refusal or three lines, and answers its length; 0, and nothing written, where the buffer is too short for it.
// No sheet is longer than 155 bytes.
pub fn sheet(input: &[u8], out: &mut [u8]) -> usize
    ensures { Printed (sheet_of input.now) out.old result out.new }
{
    match sheet_refusal(input) {
        Ok(()) => put_sheet(input, out),
        Err(refusal) => put_refusal(out, refusal),
    }
}

// The three lines of an input that is not refused.
fn put_sheet(input: &[u8], out: &mut [u8]) -> usize
    requires { sheet_refusal input.now ≡ 0 }
    ensures { Printed (sheet_of input.now) out.old result out.new }
{
    let block_size = field_at(input, 0);
    let k = field_at(input, 6);
    if out.len() < 91 + 8 * k {
        // Kept: 0 for no room, since `Printed` and README say so.
        return 0;
    }
    let raw = &input[13..];
    let training = first_part(raw, block_size, true);
    let testing = second_part(raw, block_size, true);
    put_judged(block_size, k, training, testing, out)
}

// Refused as Input, BlockSize, FewBlocks or Width where the input has no sheet.
fn sheet_refusal(input: &[u8]) -> Result<(), Refusal>
    ensures { refusal_of result ≡ sheet_refusal input.now }
{
    input_refusal(input)?;
    split_refusal(&input[13..], field_at(input, 0))?;
    if !valid_width(field_at(input, 6)) {
        return Err(Refusal::Width);
    }
    Ok(())
}
