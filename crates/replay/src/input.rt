// Standard input, read in pieces and cut into lines.
use super::answers::Answers;
use super::areas::Area;
use octets::parts;
use replay_text::words;
use std::io;

/// The piece that was read last, of which the bytes from `at` on are left; what was gathered of the line that is being
/// read; and whether the input has ended.
#[derive(Drop)]
pub struct Input<'a> {
    piece: Area<'a>,
    at: usize,
    line: Area<'a>,
    ended: bool,
}

impl<'a> Input<'a> {
    /// Nothing is read yet. A line that is longer than the room for it is cut.
    pub fn new(piece: Area<'a>, line: Area<'a>) -> Input<'a> {
        Input {
            piece,
            at: 0,
            line,
            ended: false,
        }
    }

    // Where nothing is left of the piece, writes out what waits and reads on.
    fn refill(&mut self, rt: &HostRuntime, answers: &mut Answers) -> io::Result<()> {
        if self.at < self.piece.bytes().len() {
            return Ok(());
        }
        answers.flush(rt)?;
        let length = self.piece.refill(rt)?;
        self.at = 0;
        self.ended = length == 0;
        Ok(())
    }

    // Gathers what there is of a line, as far as there is room, and says whether it is complete with it. Behind the
    // input's end what is held is the last line.
    fn gather(&mut self) -> bool {
        let at = self.at;
        let piece = self.piece.bytes();
        let size = words::before(b'\n', piece, at);
        self.line.push(parts::piece(piece, at, size));
        let end = at.saturating_add(size);
        let complete = end < piece.len();
        self.at = end.saturating_add(1);
        complete || self.ended
    }

    /// The next line, without its line feed; none behind the input's end.
    pub fn next_line(
        &mut self,
        rt: &HostRuntime,
        answers: &mut Answers,
    ) -> io::Result<Option<&[u8]>> {
        self.line.clear();
        if self.ended {
            return Ok(None);
        }
        // A count that no run uses up: a proved loop has to end, and nothing says that the input does.
        for _ in 0..u64::MAX {
            self.refill(rt, answers)?;
            if self.gather() {
                break;
            }
        }
        Ok(Some(self.line.bytes()))
    }
}
