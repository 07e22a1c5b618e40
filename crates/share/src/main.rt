// The program `share`: reads a link file on standard input and prints the listing of its division, or `refused ` and the number.
//
// A file has at most 28 + 8 × 128 + 4 × 64 = 1,308 bytes, and 1,309 are read, so that a longer input is seen to be no file. Its number is that of the whole
// input: the header is there, so a size above its limit gives 3 either way, and else the length is neither 28 + 8e nor 28 + 8e + 4n, which gives 10 (law `prefix-text` of
// crate listing). An input that fails is one that ends. Where nothing can be written, the program ends and writes nothing.
#![tactic(auto)]

// the descriptors of standard input and output
const STDIN: i32 = 0;

const STDOUT: i32 = 1;

fn main() {
    let mut file = [0u8; 1309];
    let length = io::read_full(STDIN, &mut file);
    let mut text = [0u8; 2969];
    let written = listing::share(&file[..length], &mut text);
    io::write_all(STDOUT, &text[..written]);
}
