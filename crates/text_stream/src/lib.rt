// A program that reads its input piece by piece, has a listener take each in, writes what it gives, and closes at the input's end.
//
// The contracts cite `specs/Ends.antt` and `specs/Listen.antt`.
#![tactic(auto)]

ghost use Rattle.std.specs.Prelude.{◌≡◌};
ghost use Rattle.text_stream.specs.Ends.{StreamEnds, closed_of};
ghost use Rattle.text_stream.specs.Listen.{Takes, Closes, AllGiven, GivenSoFar};

use std::io::Stdin;
use text_input as input;
use text_input::Came;
use text_output as output;
use text_output::Output;
use text_parts as parts;
use text_pieces::Fed;

// How it ends.
#[derive(Clone, Copy)]
pub enum Ending {
    // The input has ended, and all that it gives is written.
    All,
    // The output takes no more.
    Shut,
    // The input cannot be read, which is not its end.
    Failed,
    // More bytes came than can be counted.
    Endless,
}

// How many bytes came, what was written, and how that ended.
#[derive(Clone, Copy)]
pub struct Streamed {
    pub came: usize,
    pub output: Output,
    pub ending: Ending,
}

// One who listens to input that comes in pieces, and puts what it gives into a buffer of `N` bytes.
pub trait Listener<const N: usize> {
    ghost use Rattle.std.specs.Prelude.{ℕ, ◌<◌, List, [], ◌++◌};

    // What holds once an input was taken in up to its rest, and a text given out.
    ghost Stands: { Self → List ℕ → List ℕ → List ℕ → Type 0 };

    // What holds of a whole input and all that is given out for it.
    ghost Whole: { List ℕ → List ℕ → Type 0 };

    // Nothing was taken in.
    fn begin() -> Self
        ensures { Stands result [] [] [] };

    // Takes in a piece as far as what it gives finds room, and puts that at the front of the buffer.
    fn feed(&mut self, piece: &[u8], out: &mut [u8; N]) -> Fed
        ensures { Takes Stands self.old piece.now result self.new out.new };

    // Puts what is given out last, where the input ends.
    fn close(&mut self, out: &mut [u8; N]) -> usize
        ensures { Closes Stands Whole self.old result out.new };

    // The buffer is no larger than a buffer can be.
    ghost small: { N < 9223372036854775808 };

    // More input comes.
    ghost more: { (l : Self) (input piece text : List ℕ) → Stands l input [] text → Stands l (input ++ piece) piece text };
}

// How a program ends whose input has ended, once its last text was handed over.
pub fn closed(came: usize, output: Output) -> Streamed
    ensures { result ≡ closed_of came output }
{
    let ending = if output.open {
        Ending::All
    } else {
        Ending::Shut
    };
    Streamed {
        came,
        output,
        ending,
    }
}

// Has a listener take in standard input, and writes what it gives on standard output. That the input cannot be read is told, and nothing is
// closed.
pub fn stream<const N: usize, L: Listener<N> + Drop>(stdin: Stdin, failed: &[u8]) -> Streamed
    ensures { StreamEnds (AllGiven L.Whole) (GivenSoFar L.Stands) result }
{
    let mut listener = L::begin();
    let mut buffer = [0; 65536];
    let mut out = [0; N];
    let mut output = Output::fresh();
    let mut count = 0;
    // A while: a read gives as many bytes as it likes.
    'reads: while count < usize::MAX - 65537 {
        let n = match input::read(stdin, &mut buffer) {
            Came::Bytes(n) => n,
            Came::End => {
                let end = listener.close(&mut out);
                output.write(parts::first(&out, end));
                return closed(count, output);
            }
            Came::Failed => {
                output::tell(failed);
                return Streamed {
                    came: count,
                    output,
                    ending: Ending::Failed,
                };
            }
        };
        count += n;
        let mut rest = parts::first(&buffer, n);
        // A while: a call uses as much as finds room.
        'feeds: while !rest.is_empty() {
            let fed = listener.feed(rest, &mut out);
            output.write(parts::first(&out, fed.end));
            rest = parts::behind(rest, fed.used);
        }
        if !output.open {
            return Streamed {
                came: count,
                output,
                ending: Ending::Shut,
            };
        }
    }
    Streamed {
        came: count,
        output,
        ending: Ending::Endless,
    }
}
