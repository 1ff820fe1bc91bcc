// The call of each letter. All parts of a question are read before the call is made; each function here answers whether
// there were all of them, and has then written the values of the line.
use crate::{input, output};
use meaning::{Refusal, number_given};

// What each lent byte of an output holds before the call.
const LENT: u8 = 165;

// Answers the question of that letter: whether the stream goes on. Every question begins with a sheet.
pub fn answer(l: u8) -> bool {
    if !is_letter(l) {
        output::text(b"unknown\n");
        return false;
    }
    if question(l).is_none() {
        output::text(b"cut\n");
        return false;
    }
    output::text(b"\n");
    true
}

fn is_letter(l: u8) -> bool {
    matches!(
        l,
        b'S' | b'D'
            | b'T'
            | b'M'
            | b'C'
            | b'G'
            | b'B'
            | b'P'
            | b'R'
            | b'W'
            | b'L'
            | b'N'
            | b'V'
            | b'U'
    )
}

// The sheet, and then what else the call of that letter asks for.
fn question(l: u8) -> Option<()> {
    let mut buf = io::large_buffer();
    let n = input::bytes(&mut buf)?;
    let s = &buf[..n];
    match l {
        b'S' => sheet_check(s),
        b'D' => judged(s, hub::document_check),
        b'T' => judged(s, hub::table_check),
        b'M' => matches(s),
        b'C' => covers(s),
        b'G' => merge(s),
        b'B' => build(s),
        b'P' => plain_route(s),
        b'R' => with_table(s, table_route),
        b'W' => with_table(s, wanted),
        b'L' => label(s),
        b'N' => with_bytes(s, read_line_to),
        b'V' => with_bytes(s, write_pattern_to),
        b'U' => write_subscription(s),
        _ => None,
    }
}

fn sheet_check(s: &[u8]) -> Option<()> {
    output::number(number_given(hub::sheet_check(s)));
    Some(())
}

// Bytes, which are judged beside the sheet.
fn judged<F: FnOnce(&[u8], &[u8]) -> Result<(), Refusal>>(s: &[u8], check: F) -> Option<()>
    requires { F.IsAlwaysCallable check }
{
    let mut buf = io::large_buffer();
    let n = input::bytes(&mut buf)?;
    output::number(number_given(check(s, &buf[..n])));
    Some(())
}

// Room, which the call writes to; its bytes are the last value of the line.
fn with_room<F: FnOnce(&mut [u8])>(call: F) -> Option<()>
    requires { F.IsAlwaysCallable call }
{
    let mut buf = [LENT; 65535];
    let n = input::room(&buf)?;
    let out = &mut buf[..n];
    call(out);
    output::bytes(out);
    Some(())
}

fn matches(s: &[u8]) -> Option<()> {
    let mut d = io::large_buffer();
    let m = input::bytes(&mut d)?;
    let i = input::number()?;
    asked(hub::matches(s, &d[..m], i));
    Some(())
}

fn covers(s: &[u8]) -> Option<()> {
    let i = input::number()?;
    let j = input::number()?;
    asked(hub::covers(s, i, j));
    Some(())
}

// The number, and yes or no.
fn asked(a: Result<bool, Refusal>) {
    match a {
        Ok(yes) => {
            output::number(0);
            output::truth(yes);
        }
        Err(why) => {
            output::number(why.number());
            output::truth(false);
        }
    }
}

fn merge(s: &[u8]) -> Option<()> {
    let i = input::number()?;
    let j = input::number()?;
    with_room(|out| merge_to(s, i, j, out))
}

fn merge_to(s: &[u8], i: u64, j: u64, out: &mut [u8]) {
    match hub::merge(s, i, j, out) {
        Ok(merged) => {
            output::number(0);
            output::value(merged.length as u64);
            output::truth(merged.clipped);
        }
        Err(why) => {
            output::number(why.number());
            output::value(0);
            output::truth(false);
        }
    }
}

fn build(s: &[u8]) -> Option<()> {
    let limit = input::limit()?;
    with_room(|out| build_to(s, limit, out))
}

fn build_to(s: &[u8], limit: u16, out: &mut [u8]) {
    match hub::build(s, limit, out) {
        Ok(built) => {
            output::number(0);
            output::value(built.length as u64);
            output::value(built.rounds as u64);
        }
        Err(why) => {
            output::number(why.number());
            output::value(0);
            output::value(0);
        }
    }
}

fn plain_route(s: &[u8]) -> Option<()> {
    let mut d = io::large_buffer();
    let m = input::bytes(&mut d)?;
    match hub::plain_route(s, &d[..m]) {
        Ok(set) => delivered(0, set),
        Err(why) => delivered(why.number(), 0),
    }
    Some(())
}

// How many sheds and the lowest shed are asked of the set.
fn delivered(number: u8, set: u64) {
    output::number(number);
    output::set(set);
    output::value(u64::from(hub::sheds(set)));
    output::value(u64::from(hub::lowest_shed(set)));
}

// A table and a document, which the call takes beside the sheet.
fn with_table<F: FnOnce(&[u8], &[u8], &[u8])>(s: &[u8], call: F) -> Option<()>
    requires { F.IsAlwaysCallable call }
{
    let mut t = io::large_buffer();
    let mut d = io::large_buffer();
    let k = input::bytes(&mut t)?;
    let m = input::bytes(&mut d)?;
    call(s, &t[..k], &d[..m]);
    Some(())
}

// Whether anyone wants the document.
fn wanted(s: &[u8], t: &[u8], d: &[u8]) {
    asked(hub::wanted(s, t, d));
}

// The route by the table.
fn table_route(s: &[u8], t: &[u8], d: &[u8]) {
    match hub::table_route(s, t, d) {
        Ok(route) => by_table(0, route.set, route.tried as u64),
        Err(why) => by_table(why.number(), 0, 0),
    }
}

fn by_table(number: u8, set: u64, tried: u64) {
    output::number(number);
    output::set(set);
    output::value(tried);
}

fn label(s: &[u8]) -> Option<()> {
    let mut d = io::large_buffer();
    let m = input::bytes(&mut d)?;
    let l = input::number()?;
    output::number(number_given(hub::label_number(s, &d[..m], l)));
    output::bytes(hub::label_bytes(s, &d[..m], l));
    Some(())
}

// A line or a pattern's bytes, and room, which the call takes beside the sheet.
fn with_bytes<F: FnOnce(&[u8], &[u8], &mut [u8])>(s: &[u8], call: F) -> Option<()>
    requires { F.IsAlwaysCallable call }
{
    let mut text = io::large_buffer();
    let m = input::bytes(&mut text)?;
    with_room(|out| call(s, &text[..m], out))
}

fn read_line_to(s: &[u8], line: &[u8], out: &mut [u8]) {
    match hub::read_line(s, line, out) {
        Ok(length) => {
            output::number(0);
            output::value(0);
            output::value(length as u64);
        }
        Err(refusal) => {
            output::number(refusal.why.number());
            output::value(refusal.place as u64);
            output::value(0);
        }
    }
}

fn write_pattern_to(s: &[u8], p: &[u8], out: &mut [u8]) {
    written(hub::write_pattern(s, p, out));
}

fn write_subscription(s: &[u8]) -> Option<()> {
    let i = input::number()?;
    with_room(|out| written(hub::write_subscription(s, i, out)))
}

// The number, and how many bytes were written.
fn written(w: Result<usize, Refusal>) {
    match w {
        Ok(length) => {
            output::number(0);
            output::value(length as u64);
        }
        Err(why) => {
            output::number(why.number());
            output::value(0);
        }
    }
}
