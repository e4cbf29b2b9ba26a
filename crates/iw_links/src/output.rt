ghost use Rattle.std.specs.Io.KnownBytes.{Keeps};

use std::io::{self, Write};
use std::net::{OpenStream, Shutdown};

/// What a connection writes to.
pub trait Output: Write {
    /// Ends the output, so that the peer's input ends.
    fn end(&mut self) -> io::Result<()>
        ensures { Keeps (Self.contents self.old) (Self.contents self.new) };
}

impl<S: Output> Output for &mut S {
    fn end(&mut self) -> io::Result<()> {
        (**self).end()
    }
}

impl Output for Vec<u8> {
    fn end(&mut self) -> io::Result<()> {
        Ok(())
    }
}

/// The writing half of a connection's stream.
#[derive(Drop)]
pub struct Half<S>(S);

impl<S: Write + OpenStream> Half<S> {
    /// The writing half of this stream.
    pub fn new(stream: S) -> Half<S> {
        Half(stream)
    }
}

impl<S: Write + OpenStream> Write for Half<S> {
    fn write(&mut self, buf: &[u8]) -> io::Result<usize> {
        self.0.write(buf)
    }

    fn flush(&mut self) -> io::Result<()> {
        self.0.flush()
    }
}

impl<S: Write + OpenStream> Output for Half<S> {
    fn end(&mut self) -> io::Result<()> {
        self.0.shutdown(Shutdown::Write)
    }
}
