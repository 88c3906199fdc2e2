// The display unit of the 2250 Model 1 as a value: an array of 8,192 words with a head. Each call is that of the unit, over the words as a
// slice and the head.
//
// The contracts cite `specs/Device.antt`.
#![tactic(auto)]

ghost use Rattle.std.specs.Prelude.{◌≡◌, ℕ, ◌<◌, get_or};
ghost use Rattle.ground_location.specs.Location.{fresh_word};
ghost use Rattle.unit_loading.specs.Loading.{unit_load};
ghost use Rattle.unit_commands.specs.Commands.{unit_command};
ghost use Rattle.unit_advance.specs.Advance.{unit_advance};
ghost use Rattle.unit_list.specs.List.{list_ended, unit_list, unit_moves};
ghost use Rattle.typing_keys.specs.Keys.{unit_key};
ghost use Rattle.device_2250.specs.Device.{unit_of, fresh_of, switched_of, any_cursor, load_leaves, command_leaves, advance_leaves, key_leaves};

use ground_location as location;
use ground_refusals::Refusal;
use ground_setup::Size;
use typing_keys as keys;
use typing_keys::Heard;
use unit_advance as advance;
use unit_advance::Advanced;
use unit_commands as commands;
use unit_commands::Reply;
use unit_cursor::Cursor;
use unit_head as head;
use unit_head::Head;
use unit_list as list;
use unit_list::Moves;
use unit_loading as loading;

// The whole unit: the words of its buffer; and address, mode, beam, pen, status, sense and cursor in its head.
#[derive(Clone, Copy)]
pub struct Device {
    pub words: [u16; 8192],
    pub head: Head,
}

impl Device {
    // A fresh device.
    pub fn fresh(size: Size) -> Device
        ensures whole { result ≡ fresh_of size }
        ensures each { (k : ℕ) → k < 8192 → get_or result.words k 0 ≡ fresh_word }
    {
        Device {
            words: [location::FRESH; 8192],
            head: head::fresh_head(size, Cursor { count: 0 }),
        }
    }

    // Halt I/O, which changes nothing.
    pub fn halt(&mut self)
        ensures { self.new ≡ self.old }
    {}

    // Closes or opens the pen's switch. The flag is what the switch then is.
    pub fn switch_to(&mut self, closed: bool)
        ensures { self.new ≡ switched_of self.old closed }
    {
        head::switch_head(&mut self.head, closed);
    }

    // Whether any cursor bit is set, by the number of them alone.
    pub fn any_cursor(&self) -> bool
        ensures { result ≡ any_cursor self.now }
    {
        self.head.cursor.is_set()
    }

    // Loads a dump: a fresh device of that size with these words, or a refusal and the device as it was.
    // The size is a number: one that is none is a refusal.
    pub fn load(&mut self, size: usize, dump: &[u16]) -> Result<(), Refusal>
        ensures { load_leaves self.new result ≡ unit_load (unit_of self.old) size dump.now }
    {
        loading::load(&mut self.words, &mut self.head, size, dump)
    }

    // Gives a command to the device: the bytes sent with it, and the room lent for what it reads.
    pub fn command(&mut self, code: u8, bytes: &[u8], room: &mut [u8]) -> Result<Reply, Refusal>
        ensures { command_leaves self.new result room.new ≡ unit_command (unit_of self.old) code bytes.now room.old }
    {
        commands::command(&mut self.words, &mut self.head, code, bytes, room)
    }

    // Advances the unit, one step for each sight.
    pub fn advance(&mut self, sights: &[u8]) -> Result<Advanced, Refusal>
        ensures { advance_leaves self.new result ≡ unit_advance (unit_of self.old) sights.now }
    {
        advance::advance(&self.words, &mut self.head, sights)
    }

    // Lists what the next step draws with a sight, eight numbers an item, behind the items that the list holds.
    pub fn list(&self, sight: u8, held: usize, out: &mut [u16]) -> Result<Option<usize>, Refusal>
        ensures { list_ended result out.new ≡ unit_list (unit_of self.now) sight held out.old }
    {
        list::list(&self.words, &self.head, sight, held, out)
    }

    // What the next step moves the beam by.
    pub fn next_move(&self) -> Moves
        ensures { result ≡ unit_moves (unit_of self.now) }
    {
        list::next_move(&self.words, &self.head)
    }

    // A key of this number on the alphameric keyboard.
    // A number: one that no key has is a refusal.
    pub fn key(&mut self, number: u16) -> Result<Option<Heard>, Refusal>
        ensures { key_leaves self.new result ≡ unit_key (unit_of self.old) number }
    {
        keys::key(&mut self.words, &mut self.head, number)
    }
}
