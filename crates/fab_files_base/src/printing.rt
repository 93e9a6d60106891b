//! What goes to standard output.
ghost use Rattle.std.specs.Prelude.{◌≡◌, ℕ, List, [], IfOk};
ghost use Rattle.std.specs.Io.Buffered.{writer_buffer, writer_contents, writer_inner};
ghost use Rattle.std.specs.Io.KnownBytes.{Appends, Keeps};
ghost use Rattle.fab_wire_streams.specs.Counting.{inner_of};
ghost use Rattle.fab_wire_streams.specs.Taking.{Takes};

use fab_wire_streams::counted::Counted;
use fab_wire_streams::sink::Sink;
use fab_wire_streams::streams::WriteFailed;
use std::alloc::Global;
use std::io::{BufWriter, Write};

/// How a command ended that was answered.
#[derive(Clone, Copy)]
pub enum End {
    /// It was done.
    Done,
    /// It was refused.
    Refused,
}

/// Why an answer was not printed, or in part alone.
#[derive(Clone, Copy, Drop)]
pub enum PrintFault {
    /// There was no memory.
    Memory,
    /// The writer failed.
    Stream,
}

/// How many bytes are written at once.
const MOST_AT_ONCE: usize = 65536;

/// A writer that is given its bytes in large pieces.
///
/// # Errors
/// `Memory` where there is none for such a piece.
pub fn buffered<W: Write + Drop>(
    alloc: Global,
    writer: W,
) -> Result<Counted<BufWriter<W>>, PrintFault>
    ensures inner { IfOk result (λ out. writer_inner (inner_of out) ≡ writer) }
    ensures empty { IfOk result (λ out. writer_buffer (inner_of out) ≡ []) }
{
    match BufWriter::with_capacity(alloc, MOST_AT_ONCE, writer) {
        Ok(buffer) => Ok(Counted::new(buffer)),
        Err(_) => Err(PrintFault::Memory),
    }
}

/// Writes what is left, and hands back the writer.
///
/// # Errors
/// `Stream` where the writer does not take it.
pub fn finish<W: Write + Drop>(out: Counted<BufWriter<W>>) -> Result<W, PrintFault>
    ensures { IfOk result (λ writer. Keeps (writer_contents W.contents (inner_of out)) (W.contents writer)) }
{
    let mut buffer = out.into_inner();
    let came = buffer.flush();
    let (writer, _unsent) = buffer.into_parts();
    match came {
        Ok(()) => Ok(writer),
        Err(_) => Err(PrintFault::Stream),
    }
}

/// Lets go of a writer that has failed: what is left is not written, and nothing is tried again.
pub fn leave<W: Write + Drop>(out: Counted<BufWriter<W>>) {
    drop(out.into_inner().into_parts());
}

/// What is printed as one text.
pub trait Printable {
    /// The text.
    ghost text: { Self → List ℕ };

    /// Puts the text. A failure of the sink ends it.
    fn put<S: Sink>(&self, sink: &mut S) -> Result<(), WriteFailed>
        ensures { Takes S.took S.cut sink.old (text self.now) sink.new result };
}

/// Prints a text, and hands back the writer, which has got just that text.
///
/// # Errors
/// `Stream` where the writer failed, which may have got a beginning of the text and is not tried
/// again; `Memory`.
pub fn print_text<W: Write + Drop, T: Printable>(
    alloc: Global,
    writer: W,
    text: &T,
) -> Result<W, PrintFault>
    ensures { IfOk result (λ printed. Appends (W.contents writer) (W.contents printed) (T.text text.now)) }
{
    let mut out = buffered(alloc, writer)?;
    match text.put(&mut out) {
        Ok(()) => {
            let printed = finish(out)?;
            Ok(printed)
        }
        Err(WriteFailed) => {
            leave(out);
            Err(PrintFault::Stream)
        }
    }
}
