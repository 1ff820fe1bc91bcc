// The values of a line, written to standard output.
use crate::STDOUT_FILENO;

pub fn text(t: &[u8]) {
    io::write_all(STDOUT_FILENO, t);
}

// The number that is given back, which comes first.
pub fn number(n: u8) {
    io::print_decimal(STDOUT_FILENO, u64::from(n));
}

// A value after it: one space, and the value in decimal.
pub fn value(n: u64) {
    text(b" ");
    io::print_decimal(STDOUT_FILENO, n);
}

pub fn truth(yes: bool) {
    if yes {
        text(b" 1");
    } else {
        text(b" 0");
    }
}

// A delivery set: 16 hexadecimal digits, the highest first.
pub fn set(s: u64) {
    text(b" ");
    io::print_hex(STDOUT_FILENO, s, 16);
}

// Bytes: two hexadecimal digits each, and `-` where there are none. No part is longer than 65,535 bytes.
pub fn bytes(b: &[u8]) {
    if b.is_empty() {
        text(b" -");
        return;
    }
    text(b" ");
    let part = &b[..b.len().min(65535)];
    let mut line = [0u8; 131070];
    for (i, x) in part.iter().enumerate() {
        line[2 * i] = digit(*x / 16);
        line[2 * i + 1] = digit(*x % 16);
    }
    text(&line[..2 * part.len()]);
}

fn digit(d: u8) -> u8 {
    match d {
        0..=9 => b'0' + d,
        10..=15 => b'a' + (d - 10),
        _ => b'?',
    }
}
