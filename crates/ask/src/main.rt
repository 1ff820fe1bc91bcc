// Every call of the hub, asked by a stream of questions on standard input and answered by a line each on standard output.
// A question is a letter and its parts: bytes after a length of two, numbers of eight bytes, limits and rooms of two.
#![tactic(auto)]

mod calls; // calls.rt: the call of each letter, and its line
mod input; // input.rt: the parts of a question
mod output; // output.rt: the values of a line

// The descriptor of standard input, which the parts of a question come from.
const STDIN_FILENO: i32 = 0;

// The descriptor of standard output, which the values of a line go to.
const STDOUT_FILENO: i32 = 1;

// A program has to end: no stream is longer, since a question takes a microsecond or more.
const MOST_QUESTIONS: u64 = 281474976710656;

fn main() {
    for _ in 0..MOST_QUESTIONS {
        let Some(l) = input::letter() else {
            return;
        };
        if !calls::answer(l) {
            return;
        }
    }
}
