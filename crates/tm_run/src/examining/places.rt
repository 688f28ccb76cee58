ghost use Rattle.std.specs.Prelude.{◌≡◌, ◌≤◌, length};
ghost use Rattle.tm_run.specs.Files.{file_bytes};
ghost use Rattle.tm_run.specs.Places.{at_byte, ends_line};

use tm_report::At;

fn ends_line(b: u8) -> bool
    ensures { result ≡ ends_line b }
{
    b == b'\n'
}

/// The place of a byte of a file, or of the file's end.
pub fn at(file: &[u8], byte: usize) -> At
    requires short { length file.now ≤ file_bytes }
    requires within { byte ≤ length file.now }
    ensures { result ≡ at_byte file.now byte }
{
    let line_ends = file[..byte].iter().filter(|b| ends_line(**b)).count();
    At {
        byte: byte as u32,
        line: line_ends as u32 + 1,
    }
}
