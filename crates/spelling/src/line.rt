// A pattern by value as a line, where each of its labels can stand in one.
ghost use Rattle.std.specs.Prelude.{◌≡◌};
ghost use Rattle.base.specs.Lists.{every};
ghost use Rattle.meaning.specs.Forest.{steps_of};
ghost use Rattle.meaning.specs.LineCalls.{step_writable, text_writing, output_answer};
ghost use Rattle.meaning.specs.PatternText.{pattern_text};
ghost use Rattle.shapes.specs.Shapes.{pattern_of, WellFormed};
ghost use Rattle.labels.specs.LabelPlaces.{labels_in};
ghost use Rattle.texts.specs.PutText.{written, put};
ghost use Rattle.reading.specs.SheetPlaces.{sheet_at};
ghost use Rattle.reading.specs.SheetJudged.{SheetStands};
ghost use Rattle.writing.specs.Gives.{Gives};

use labels::label_at;
use labels::written::writable;
use meaning::{LONGEST_LINE, Refusal};
use shapes::Pattern;
use texts::Text;

// Each label of a pattern's steps can stand in a line.
fn all_writable(s: &[u8], p: Pattern) -> bool
    requires { WellFormed p }
    ensures { result ≡ every (step_writable (sheet_at s.now).labels) (steps_of (pattern_of p)) }
{
    p.steps()
        .iter()
        .all(|x| writable(label_at(s, x.label as usize)))
}

// Puts a pattern's text at the start of a line: how long it is.
fn put_line(s: &[u8], p: &Pattern, line: &mut [u8]) -> usize
    requires { WellFormed p.now }
    ensures { written line.new result
        ≡ put (written line.old 0) (pattern_text (labels_in s.now) (pattern_of p.now)) }
{
    let mut text = Text::new(line);
    text.put_pattern(s, p);
    text.at
}

// Writes a pattern as a line, beside a sheet that was judged.
pub fn write_line(s: &[u8], p: Pattern, out: &mut [u8]) -> Result<usize, Refusal>
    requires { SheetStands s.now × WellFormed p }
    ensures { Gives output_answer out.old (text_writing (sheet_at s.now).labels (pattern_of p)) result out.new }
{
    if !all_writable(s, p) {
        return Err(Refusal::NotWritable);
    }
    let mut line = [0; LONGEST_LINE];
    let n = put_line(s, &p, &mut line);
    if out.len() < n {
        return Err(Refusal::NoRoom);
    }
    Text::new(out).put_bytes(&line[..n]);
    Ok(n)
}
