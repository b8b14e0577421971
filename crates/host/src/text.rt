// The judging program's text in a buffer of any length.
ghost use Rattle.std.specs.Prelude.{◌≡◌, ◌≤◌, length};
ghost use Rattle.file_writer.specs.Writing.{told};
ghost use Rattle.buffer.specs.Fitting.{fit_told, fit_left};
ghost use Rattle.host.specs.Text.{text_told, text_left};

use buffer::Text;
use refusal::{Reason, needed};
use reporting::report_file;

// Puts a text at the front of the buffer, if it fits.
fn fitted(buf: &mut [u8], text: &[u8]) -> Result<usize, Reason>
    ensures result_value { told result ≡ fit_told text.now (length buf.old) }
    ensures buf_after { buf.new ≡ fit_left text.now buf.old }
{
    needed(text.len() <= buf.len(), Reason::Room)?;
    let mut t = Text::new(buf);
    t.put(text);
    Ok(t.at)
}

pub fn text_of(f: &[u8], buf: &mut [u8]) -> Result<usize, Reason>
    ensures result_value { told result ≡ text_told f.now (length buf.old) }
    ensures buf_after { buf.new ≡ text_left f.now buf.old }
{
    let mut line = [0u8; 1024];
    let k = report_file(f, &mut line);
    fitted(buf, &line[..k])
}
