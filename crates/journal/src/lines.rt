// The lines of a journal, one by one.
ghost use Rattle.std.specs.Prelude.{◌≡◌};
ghost use Rattle.journal.specs.OneByOne.{readings, lines_left};

use crate::Answer;
use crate::reader::read_line;
use answers::sizes;
use morus::Key;

/// A line that was read: what `read_line` answers, and a copy of the frame that it leaves: opened, and 0xaa behind it,
/// or with a refusal 0xaa in all 353 bytes.
#[derive(Clone, Copy, Debug, PartialEq, Eq)]
pub struct Line {
    pub answer: Answer,
    pub frame: [u8; sizes::MOST_FRAME],
}

/// The lines of a journal from its first byte on, each read from the place that the one before gave. A refused line is
/// an item too, and so is a last line without a newline; at the journal's end there is none, where `read_line` answers
/// `End`.
#[derive(Drop)]
pub struct Lines<'a> {
    journal: &'a [u8],
    key: Key,
    next: usize,
}

impl<'a> Lines<'a> {
    /// All lines of the journal, under the one key.
    pub fn new(journal: &'a [u8], key: Key) -> Self
        ensures { lines_left result ≡ readings key journal.now 0 }
    {
        Self {
            journal,
            key,
            next: 0,
        }
    }
}

impl<'a> Iterator for Lines<'a> {
    ghost use Rattle.std.specs.Iterator.{YieldsFirstBy, item_count};
    ghost use Rattle.journal.specs.OneByOne.{reading_in, lines_left};

    type Item = Line;

    ghost next_gives = { YieldsFirstBy reading_in lines_left };

    ghost remaining = { item_count lines_left };

    #[tactic(auto, using(crate::proofs::OneByOne::step, crate::proofs::OneByOne::none_left))]
    fn next(&mut self) -> Option<Line> {
        if self.journal.len() <= self.next {
            return None;
        }
        let mut frame = [0u8; sizes::MOST_FRAME];
        let answer = read_line(self.journal, self.next, self.key, &mut frame);
        self.next = answer.next;
        Some(Line { answer, frame })
    }
}
