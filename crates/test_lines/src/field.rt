// The fields of a line, with one space between two; they are counted from 0.
ghost use Rattle.std.specs.Prelude.{[], ◌≡◌, ltb, option_map, slice_get, get_or, length, unwrap_or, IfSome, ◌<◌};
ghost use Rattle.test_lines.specs.Fields.{First, fields_of};

// Field n, where there is one.
fn get(line: &[u8], n: usize) -> Option<&[u8]>
    ensures { option_map (λ field. field.now) result ≡ slice_get (fields_of line.now) n }
{
    line.split(|byte| *byte == b' ').nth(n)
}

pub fn has(line: &[u8], n: usize) -> bool
    ensures { result ≡ ltb n (length (fields_of line.now)) }
{
    get(line, n).is_some()
}

// Field n, or no bytes where there is none.
pub fn nth(line: &[u8], n: usize) -> &[u8]
    ensures { result.now ≡ get_or (fields_of line.now) n [] }
{
    get(line, n).unwrap_or(&[])
}

// Which of the first n fields is the word.
pub fn find(line: &[u8], n: usize, word: &[u8]) -> Option<usize>
    ensures first { First (fields_of line.now) n word.now (unwrap_or result n) }
    ensures below { IfSome result (λ i. i < n) }
{
    (0..n).find(|i| nth(line, *i) == word)
}
