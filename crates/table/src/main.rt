// Reads two bytes of limit and then a sheet from standard input, and prints the table that is built, or the refusal.
#![tactic(auto)]

// The descriptor of standard input.
const STDIN_FILENO: i32 = 0;

// The descriptor of standard output.
const STDOUT_FILENO: i32 = 1;

fn main() {
    // No sound sheet has more than 18,693 bytes: one more decides every longer input.
    let mut input = [0u8; 18696];
    let read = io::read_full(STDIN_FILENO, &mut input);
    // The longest text of a table has fewer than 80,000 bytes.
    let mut out = [0u8; 80000];
    let long = printing::printed::put_text(&input[..read], &mut out);
    show(&out, long);
}

// Writes the first bytes of a text.
fn show(text: &[u8], long: usize) {
    if long <= text.len() {
        io::write_all(STDOUT_FILENO, &text[..long]);
    }
}
