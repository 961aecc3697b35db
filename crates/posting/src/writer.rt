// A record written into a buffer.
ghost use Rattle.std.specs.Prelude.{◌≡◌, ◌≤◌, length};
ghost use Rattle.posting.specs.Encoding.{longest_body, framed, encoded};
ghost use Rattle.posting.specs.Laws.{ReadsBack};
ghost use Rattle.posting.specs.Writing.{writing_answer, written_over};

use crate::body::{Body, Field};
use crate::posting::Posting;
use refusal::{Layer, Reason, Refusal};

// Writes a body behind its length.
fn write_framed(body: &[u8], out: &mut [u8]) -> Result<usize, Refusal>
    requires { length body.now ≤ longest_body }
    ensures answer { result ≡ writing_answer (framed body.now) out.old }
    ensures after { out.new ≡ written_over (framed body.now) out.old }
{
    let length = body.len() as u16;
    let size = 2 + body.len();
    if out.len() < size {
        return Err(Refusal::naming_nobody(Reason::OutputTooShort, Layer::File));
    }
    out[0..2].copy_from_slice(&length.to_be_bytes());
    out[2..size].copy_from_slice(body);
    Ok(size)
}

// Writes the record of a posting at the front of a buffer, leaves what is behind it, and gives how many bytes it took. A buffer
// that is too short is refused with 20, layer file, and stays as it was.
pub fn write_record(posting: &Posting, out: &mut [u8]) -> Result<usize, Refusal>
    ensures answer { result ≡ writing_answer (encoded posting.now) out.old }
    ensures after { out.new ≡ written_over (encoded posting.now) out.old }
    ensures reads_back { ReadsBack posting.now out.new result }
{
    let mut body = Body::new();
    posting.put(&mut body);
    write_framed(body.as_slice(), out)
}
