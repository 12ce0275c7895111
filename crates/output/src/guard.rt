ghost use Rattle.std.specs.Prelude.{◌≡◌};
ghost use Rattle.output.specs.Lent.{taken_back};

use crate::paper::Paper;

// A line that is being written on a paper, and where the count of used bytes goes back to when the line ends: nowhere,
// once the line is finished.
pub(crate) struct Line<'p, 'a> {
    pub paper: &'p mut Paper<'a>,
    pub back_to: Option<usize>,
}

impl Drop for Line<'_, '_> {
    fn drop(self)
        ensures { self.exit.0.now ≡ taken_back self.entry.back_to self.entry.paper.now }
    {
        if let Some(start) = self.back_to {
            self.paper.count.used = start;
        }
        let Line {
            paper: _,
            back_to: _,
        } = self;
    }
}
