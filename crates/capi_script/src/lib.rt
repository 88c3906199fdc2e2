// A whole script in memory, answered by one unit, for programs in other languages.
//
// The contracts cite `Play.antt` of `console_session`.
#![tactic(auto)]

ghost use Rattle.std.specs.Prelude.{◌≡◌, ◌+◌, min, length};
ghost use Rattle.text_parse.specs.Index.{index_of};
ghost use Rattle.text_put.specs.Text.{put_at, end_of};
ghost use Rattle.console_session.specs.Play.{first_line, play_of};
ghost use Rattle.console_session.specs.Session.{said_of, Speaks};

use console_session as session;
use device_2250::Device;
use ground_setup::Size;
use text_parse as parse;
use text_parts as parts;

// How many bytes the first line has with its newline.
fn with_newline(rest: &[u8]) -> usize
    ensures { result ≡ min (index_of 10 rest.now + 1) (length rest.now) }
{
    (parse::index_of(b'\n', rest) + 1).min(rest.len())
}

// Answers the first line.
#[tactic(auto, unfolding(console_session::specs::Play::first_line))]
fn answer_first(device: &mut Device, rest: &[u8], out: &mut [u8], at: usize) -> usize
    ensures { Speaks (said_of device.old (first_line rest.now)) out.old at out.new device.new result }
{
    session::answer(device, parse::before(b'\n', rest), out, at)
}

// Plays a script on a fresh unit of 4,096: the answers of its lines stand one behind the other at the front of the buffer.
#[unsafe(no_mangle)]
#[tactic(auto, using(crate::proofs::Laws::playing_first))]
pub extern "C" fn khaonuat_script(script: &[u8], out: &mut [u8]) -> usize
    ensures value { result ≡ end_of out.old 0 (play_of script.now) }
    ensures out_after { out.new ≡ put_at out.old 0 (play_of script.now) }
{
    let mut device = Device::fresh(Size::K4);
    let mut from = 0;
    let mut end = 0;
    // A while: each line has its own length.
    while from < script.len() {
        let rest = parts::behind(script, from);
        end = answer_first(&mut device, rest, out, end);
        from += with_newline(rest);
    }
    end
}
