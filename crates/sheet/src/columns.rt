// Numbers written in columns.
ghost use Rattle.std.specs.Prelude.{◌≡◌, ◌+◌, ◌*◌, ◌%◌, ◌≤◌, length};
ghost use Rattle.sheet.specs.Columns as Columns;
ghost use Rattle.sheet.specs.Columns.{symbol, symbol_at, fields, line};
ghost use Rattle.counting.specs.Buffer.{put};

// Writes a line of numbers, `width` columns each, from place `at` on; answers the place after it.
pub fn put_line(out: &mut [u8], at: usize, width: usize, values: &[u64]) -> usize
    requires { at + width * length values.now + 1 ≤ length out.old }
    ensures value { result ≡ at + width * length values.now + 1 }
    ensures out_after { out.new ≡ put out.old at (line width values.now) }
{
    let end = put_fields(out, at, width, values);
    out[end] = b'\n';
    end + 1
}

// The numbers of a line.
fn put_fields(out: &mut [u8], at: usize, width: usize, values: &[u64]) -> usize
    requires { at + width * length values.now ≤ length out.old }
    ensures value { result ≡ at + width * length values.now }
    ensures out_after { out.new ≡ put out.old at (fields width values.now) }
{
    let mut to = at;
    for value in values {
        put_columns(out, to, width, *value);
        to += width;
    }
    to
}

// One number, right-justified.
fn put_columns(out: &mut [u8], at: usize, width: usize, value: u64)
    requires { at + width ≤ length out.old }
    ensures { out.new ≡ put out.old at (Columns.columns width value) }
{
    for i in 0..width {
        out[at + i] = symbol_at(value, width - 1 - i);
    }
}

// The character of a number that stands `place` places before its field's end.
pub fn symbol_at(value: u64, place: usize) -> u8
    ensures { result ≡ symbol_at value place }
{
    let mut rest = value;
    for _turn in 0..place {
        rest /= 10;
    }
    symbol_of(place, rest)
}

// A digit; a space where nothing is left of the number, but for the last place.
fn symbol_of(place: usize, rest: u64) -> u8
    ensures { result ≡ symbol place rest }
{
    if place == 0 || rest != 0 {
        digit(rest)
    } else {
        b' '
    }
}

// The last decimal digit of a number, in ASCII.
fn digit(value: u64) -> u8
    ensures { result ≡ 48 + value % 10 }
{
    b'0' + (value % 10) as u8
}
