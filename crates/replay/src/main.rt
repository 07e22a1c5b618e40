// The program `replay`: link files one after another on standard input, each behind its length of four bytes, the lowest first; their listings one
// after another on standard output. Its files stdin and stdout are requests and the Rust's answers to them, which oracle/replay.sh writes.
//
// It ends with the input, with a request that is cut short, and with a length above 2,048, which is more than any request here has.
#![tactic(auto)]

// the descriptors of standard input and output
const STDIN: i32 = 0;

const STDOUT: i32 = 1;

// A request that fills this slice is read and answered: whether to go on.
fn answer(file: &mut [u8]) -> bool {
    if io::read_full(STDIN, file) < file.len() {
        return false;
    }
    let mut text = [0u8; 2969];
    let written = listing::share(file, &mut text);
    io::write_all(STDOUT, &text[..written])
}

// One request with its length: whether to go on.
fn answer_next() -> bool {
    let mut head = [0u8; 4];
    if io::read_full(STDIN, &mut head) < 4 {
        return false;
    }
    let length = u32::from_le_bytes(head) as usize;
    if length > 2048 {
        return false;
    }
    let mut file = [0u8; 2048];
    answer(&mut file[..length])
}

// Nothing says that the input ends, so the turns are counted, up to a number that no run reaches.
fn main() {
    for _ in 0..u64::MAX {
        if !answer_next() {
            break;
        }
    }
}
