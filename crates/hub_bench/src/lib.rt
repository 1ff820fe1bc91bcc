// The calls that the benchmark times beside those of the print server: covering, merging, building, and lines of the notation
// read and written.
#![tactic(auto)]

ghost use Rattle.meaning.specs.Given.{by_number};
ghost use Rattle.meaning.specs.Promises.{CoversGives, MergeGives, BuildGives};
ghost use Rattle.meaning.specs.Promises.{ReadLineGives, WritePatternGives, WriteSubscriptionGives};

// Whether one subscription covers another: the number, and yes or no.
#[repr(C)]
#[derive(Clone, Copy)]
pub struct Covering {
    pub number: u8,
    pub said: bool,
}

// A merge: the number, the mark, and how many bytes were written.
#[repr(C)]
#[derive(Clone, Copy)]
pub struct Merging {
    pub number: u8,
    pub clipped: bool,
    pub length: u64,
}

// A table that was built: the number, the rounds, and how many bytes were written.
#[repr(C)]
#[derive(Clone, Copy)]
pub struct Building {
    pub number: u8,
    pub rounds: u64,
    pub length: u64,
}

// A line that was read: the number, the place that comes with 13, and how many bytes were written.
#[repr(C)]
#[derive(Clone, Copy)]
pub struct LineReading {
    pub number: u8,
    pub place: u64,
    pub length: u64,
}

// A line that was written: the number, and how many bytes.
#[repr(C)]
#[derive(Clone, Copy)]
pub struct LineWriting {
    pub number: u8,
    pub length: u64,
}

#[unsafe(no_mangle)]
pub extern "C" fn bench_covers(s: &[u8], i: u64, j: u64) -> Covering
    ensures { CoversGives s.now i j (by_number result.number result.said) }
{
    match hub::covers(s, i, j) {
        Err(why) => Covering {
            number: why.number(),
            said: false,
        },
        Ok(yes) => Covering {
            number: 0,
            said: yes,
        },
    }
}

#[unsafe(no_mangle)]
pub extern "C" fn bench_merge(s: &[u8], i: u64, j: u64, out: &mut [u8]) -> Merging
    ensures { MergeGives s.now i j out.old
        (by_number result.number (record { length = result.length; clipped = result.clipped })) out.new }
{
    match hub::merge(s, i, j, out) {
        Err(why) => Merging {
            number: why.number(),
            clipped: false,
            length: 0,
        },
        Ok(merged) => Merging {
            number: 0,
            clipped: merged.clipped,
            length: merged.length as u64,
        },
    }
}

#[unsafe(no_mangle)]
pub extern "C" fn bench_build(s: &[u8], limit: u16, out: &mut [u8]) -> Building
    ensures { BuildGives s.now limit out.old
        (by_number result.number (record { length = result.length; rounds = result.rounds })) out.new }
{
    match hub::build(s, limit, out) {
        Err(why) => Building {
            number: why.number(),
            rounds: 0,
            length: 0,
        },
        Ok(built) => Building {
            number: 0,
            rounds: built.rounds as u64,
            length: built.length as u64,
        },
    }
}

#[unsafe(no_mangle)]
pub extern "C" fn bench_read_line(s: &[u8], line: &[u8], out: &mut [u8]) -> LineReading
    ensures { ReadLineGives s.now line.now out.old
        (by_number result.number (record { place = result.place; length = result.length })) out.new }
{
    match hub::read_line(s, line, out) {
        Err(refusal) => LineReading {
            number: refusal.why.number(),
            place: refusal.place as u64,
            length: 0,
        },
        Ok(length) => LineReading {
            number: 0,
            place: 0,
            length: length as u64,
        },
    }
}

#[unsafe(no_mangle)]
pub extern "C" fn bench_write_pattern(s: &[u8], p: &[u8], out: &mut [u8]) -> LineWriting
    ensures { WritePatternGives s.now p.now out.old
        (by_number result.number result.length) out.new }
{
    match hub::write_pattern(s, p, out) {
        Err(why) => LineWriting {
            number: why.number(),
            length: 0,
        },
        Ok(length) => LineWriting {
            number: 0,
            length: length as u64,
        },
    }
}

#[unsafe(no_mangle)]
pub extern "C" fn bench_write_subscription(s: &[u8], i: u64, out: &mut [u8]) -> LineWriting
    ensures { WriteSubscriptionGives s.now i out.old
        (by_number result.number result.length) out.new }
{
    match hub::write_subscription(s, i, out) {
        Err(why) => LineWriting {
            number: why.number(),
            length: 0,
        },
        Ok(length) => LineWriting {
            number: 0,
            length: length as u64,
        },
    }
}
