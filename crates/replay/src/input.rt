// Lines of the input: bytes are collected until a line ends, and then it is answered.
use replay_player::player::Session;
use replay_text::out::Out;
use std::io;
use std::io::Read;

#[derive(Drop)]
pub struct Lines<'a> {
    session: Session<'a>,
    // What is collected of a line.
    line: Out<'a>,
    // Room for the bytes that a line names.
    bytes: &'a mut [u8],
}

impl<'a> Lines<'a> {
    pub fn new(session: Session<'a>, line: Out<'a>, bytes: &'a mut [u8]) -> Lines<'a> {
        Lines {
            session,
            line,
            bytes,
        }
    }

    // Writes the answers that are ready.
    fn flush<P: Print>(&mut self, rt: &P) -> io::Result<()> {
        rt.write_all(self.session.out.as_slice())?;
        self.session.out.clear();
        Ok(())
    }

    // Answers the collected line. The buffer has room for the longest answer, that of a run.
    fn end_line<P: Print>(&mut self, rt: &P) -> io::Result<()> {
        self.session.answer(&self.line, self.bytes);
        self.line.clear();
        if self.session.out.len() < 131_072 {
            return Ok(());
        }
        self.flush(rt)
    }

    // Each part but the first stands behind a line feed.
    fn take<P: Print>(&mut self, rt: &P, chunk: &[u8]) -> io::Result<()> {
        for (i, part) in chunk.split(|&b| b == b'\n').enumerate() {
            if i != 0 {
                self.end_line(rt)?;
            }
            self.line.put_all(part);
        }
        Ok(())
    }

    // A last line may lack its line feed.
    fn finish<P: Print>(&mut self, rt: &P) -> io::Result<()> {
        if self.line.len() != 0 {
            self.end_line(rt)?;
        }
        self.flush(rt)
    }

    // Answers each line that ends as it is read. A proved loop has to end, and nothing says that the input does: so it counts to a number
    // that no run reaches.
    pub fn play<R: Input + Print>(&mut self, rt: &R) -> io::Result<()> {
        let mut reader = rt.reader();
        let mut chunk = [0u8; 65_536];
        for _ in 0..u64::MAX {
            let n = reader.read(&mut chunk)?;
            if n == 0 {
                break;
            }
            self.take(rt, &chunk[..n])?;
            self.flush(rt)?;
        }
        self.finish(rt)
    }
}
