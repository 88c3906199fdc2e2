// Standard output, and standard error.
//
// The contracts cite `specs/Output.antt`.
#![tactic(auto)]

ghost use Rattle.std.specs.Prelude.{◌≡◌, length, true};
ghost use Rattle.text_output.specs.Output.{Handed};

// The numbers of standard output and of standard error. No Stdout of std: each call would take one more parameter and promise no more.
const STDOUT_FILENO: i32 = 1;

const STDERR_FILENO: i32 = 2;

// How many bytes were handed to standard output, and whether whoever reads them is still there.
#[derive(Clone, Copy)]
pub struct Output {
    pub written: usize,
    pub open: bool,
}

impl Output {
    // Nothing was handed over yet, and whoever reads is there.
    pub fn fresh() -> Output
        ensures { result ≡ record { written = 0; «open» = true } }
    {
        Output {
            written: 0,
            open: true,
        }
    }

    // Writes a text. Once a write has failed nothing more is written.
    pub fn write(&mut self, text: &[u8])
        ensures { Handed self.old (length text.now) (length text.now) self.new }
    {
        if !self.open {
            return;
        }
        let Some(written) = self.written.checked_add(text.len()) else {
            self.open = false;
            return;
        };
        self.open = io::write_all(STDOUT_FILENO, text);
        self.written = written;
    }
}

// Tells a line on standard error, and answers how many bytes were handed over.
pub fn tell(line: &[u8]) -> usize
    ensures { result ≡ length line.now }
{
    io::write_all(STDERR_FILENO, line);
    line.len()
}
