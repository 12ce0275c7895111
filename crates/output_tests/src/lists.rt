ghost use Rattle.std.specs.Prelude.{◌∷◌, [], None};
ghost use Rattle.output.specs.declared.lines.Lead.TheVariants.{Letter};
ghost use Rattle.output.specs.Lines.{line_of};

use crate::callers::write_values_by_closure;
use output::answers::LineWriter;
use output::lines::Lead;
use output::paper::Paper;
use std::test::Fail;
use terms::refusals::Refusal;
use values::records::Dial;

const DIALS: [Dial; 3] = [Dial { number: 7 }, Dial { number: 0 }, Dial { number: 120 }];

fn write_dial(paper: &mut Paper<'_>, dial: &Dial) -> Result<(), Refusal> {
    paper.write_value(dial)
}

// Lines by a closure, by a function's name, and by a closure that writes no line for some items.
#[test]
fn lines_by_closures(rt: HostRuntime) -> Result<(), Fail> {
    let mut bytes = [b'.'; 82];
    let mut paper = Paper::new(&mut bytes);
    write_values_by_closure(&mut paper, &DIALS)?;
    assert_eq!(rt; paper.count.used, 14);
    assert_eq!(rt; &bytes[..18], b"V,7\nV,0\nV,120\n....".as_slice());

    let mut bytes = [b'.'; 82];
    let mut paper = Paper::new(&mut bytes);
    paper.write_each(&DIALS, write_dial)?;
    assert_eq!(rt; paper.count.used, 14);
    assert_eq!(rt; &bytes[..18], b"V,7\nV,0\nV,120\n....".as_slice());

    let letter = b'R';
    let mut bytes = [b'.'; 82];
    let mut paper = Paper::new(&mut bytes);
    paper.write_each(&[3u64, 0, 5], |paper, n| {
        if *n == 0 {
            return Ok(());
        }
        paper.write_line(Lead::Letter(letter), &[*n], None)
    })?;
    assert_eq!(rt; paper.count.used, 8);
    assert_eq!(rt; &bytes[..12], b"R,3\nR,5\n....".as_slice());
    Ok(())
}

// Behind a line 64 bytes have to be left: the third ends at byte 14, so that it needs 78.
#[test]
fn lines_until_one_finds_no_room(rt: HostRuntime) {
    let mut bytes = [b'.'; 77];
    let mut paper = Paper::new(&mut bytes);
    assert_eq!(rt;
        paper.write_each(&DIALS, |paper, dial| paper.write_value(dial)),
        Err(Refusal::PaperFull)
    );
    assert_eq!(rt; paper.count.used, 8);
    assert_eq!(rt; &bytes[..8], b"V,7\nV,0\n".as_slice());

    let mut bytes = [b'.'; 78];
    let mut paper = Paper::new(&mut bytes);
    assert_eq!(rt; paper.write_each(&DIALS, write_dial), Ok(()));
    assert_eq!(rt; paper.count.used, 14);
    assert_eq!(rt; &bytes[..18], b"V,7\nV,0\nV,120\n....".as_slice());

    let mut bytes = [b'.'; 77];
    let mut paper = Paper::new(&mut bytes);
    assert_eq!(rt; paper.write_each(&DIALS[..0], write_dial), Ok(()));
    assert_eq!(rt; paper.count.used, 0);
    assert_eq!(rt; bytes, [b'.'; 77]);
}

// Writes a number behind a letter of its own.
struct Lettered {
    letter: u8,
}

impl LineWriter<u64> for Lettered {
    ghost line = { λ writer n. line_of (Letter writer.letter) (n ∷ []) None };

    fn write(&self, paper: &mut Paper<'_>, n: &u64) -> Result<(), Refusal> {
        paper.write_line(Lead::Letter(self.letter), &[*n], None)
    }
}

#[test]
fn lines_by_a_writer(rt: HostRuntime) -> Result<(), Fail> {
    let mut bytes = [b'.'; 82];
    let mut paper = Paper::new(&mut bytes);
    paper.write_lines(&[7u64, 120], &Lettered { letter: b'W' })?;
    assert_eq!(rt; paper.count.used, 10);
    assert_eq!(rt; &bytes[..14], b"W,7\nW,120\n....".as_slice());
    Ok(())
}
