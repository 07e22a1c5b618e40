// Bytes, numbers, and words with numbers, put into a text one after the other. Each answers where it ended.
ghost use Rattle.std.specs.Prelude.{◌++◌, ◌+◌, ◌≤◌, length};
ghost use Rattle.multilevel.specs.File.{Written};
ghost use Rattle.listing.specs.Text.{decimal};

pub(crate) fn put(text: &mut [u8], at: usize, bytes: &[u8]) -> usize
    requires { at + length bytes.now ≤ length text.old }
    ensures { Written bytes.now at text.old text.new result }
{
    let end = at + bytes.len();
    text[at..end].copy_from_slice(bytes);
    end
}

pub(crate) fn put_number(text: &mut [u8], at: usize, n: u64) -> usize
    requires { at + 20 ≤ length text.old }
    ensures written { Written (decimal n) at text.old text.new result }
    ensures upper_bound { result ≤ at + 20 }
{
    let mut digits = [0u8; 20];
    let k = io::decimal(n, &mut digits);
    put(text, at, &digits[..k])
}

pub(crate) fn put_field(text: &mut [u8], at: usize, word: &[u8], n: u64) -> usize
    requires { at + length word.now + 20 ≤ length text.old }
    ensures written { Written (word.now ++ decimal n) at text.old text.new result }
    ensures upper_bound { result ≤ at + length word.now + 20 }
{
    let from = put(text, at, word);
    put_number(text, from, n)
}
