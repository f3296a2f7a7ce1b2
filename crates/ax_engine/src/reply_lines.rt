//! The texts of replies that take no memory: that of a refusal, and of a document, whose text is written as it stands.

ghost use Rattle.std.specs.Prelude.{◌≡◌, OnOk, OnErr};
ghost use Rattle.std.specs.Io.KnownBytes.{Appends};
ghost use Rattle.ax_base.specs.Appends.{AppendsPrefix};
ghost use Rattle.ax_faults.specs.Faults.{HasCause};
ghost use Rattle.ax_machine.specs.Reply as reply;
ghost use Rattle.ax_machine.specs.ReplyTexts.{doc_text, refusal_text, reply_text};

use ax_base::{Failed, Sink, write_all};
use ax_lines::Refusal;

/// The reply to a line that is not answered by its step because memory ran out. It takes none
/// itself.
pub fn out_of_memory_line() -> &'static [u8]
    ensures { result.now ≡ reply_text reply.out_of_memory }
{
    b"err 9 memory\n"
}

/// The reply to a line that is refused. It takes no memory.
pub fn refusal_line(refusal: Refusal) -> &'static [u8]
    ensures { result.now ≡ refusal_text refusal }
{
    match refusal {
        Refusal::Line => b"err 1 line\n",
        Refusal::Command => b"err 2 command\n",
        Refusal::Json => b"err 3 json\n",
        Refusal::Number => b"err 4 number\n",
        Refusal::Id => b"err 5 id\n",
        Refusal::Large => b"err 6 large\n",
        Refusal::Conflict => b"err 7 conflict\n",
        Refusal::Absent => b"err 8 absent\n",
        Refusal::Memory => out_of_memory_line(),
        Refusal::Query => b"err 10 query\n",
        Refusal::Order => b"err 11 order\n",
        Refusal::Full => b"err 15 full\n",
    }
}

/// Writes the reply to a read of the document with this text: `doc `, the text, which is not copied, and a newline.
///
/// `Failed` where a write failed, or took nothing. The sink has then taken a prefix of the reply.
pub fn write_document<K: Sink>(sink: &mut K, text: &[u8]) -> Result<(), Failed>
    ensures added { OnOk result (Appends (K.written sink.old) (K.written sink.new) (doc_text text.now)) }
    ensures failed { OnErr result (AppendsPrefix (K.written sink.old) (K.written sink.new) (doc_text text.now)) }
    ensures cause { HasCause result (K.faults sink.old) (K.faults sink.new) }
{
    write_all(sink, b"doc ")?;
    write_all(sink, text)?;
    write_all(sink, b"\n")
}
