// Groups of two locations, fetched from the words of a buffer or from the bytes of an image.
//
// The contracts cite `specs/Groups.antt`.
#![tactic(auto)]

ghost use Rattle.std.specs.Prelude.{◌≡◌, ℕ};
ghost use Rattle.ground_groups.specs.Groups.{pair_of, words_group, image_group};

use ground_location as location;
use ground_setup as setup;
use ground_setup::Setup;
use ground_words as words;

// Two locations that are read together.
// Not a Result: a look has three cases of them, and none is a refusal.
#[derive(Clone, Copy)]
pub enum Group {
    // One of them is unwritten.
    Unwritten,
    // The parity at this address is bad.
    Bad(usize),
    // Their bytes.
    Bytes(u8, u8),
}

// What groups are fetched from.
pub trait Source: Copy {
    ghost use Rattle.ground_setup.specs.declared.Setup.{Setup};
    ghost use Rattle.ground_groups.specs.declared.Group.{Group};

    // The group at an address.
    ghost group: { Self → Setup → ℕ → Group };

    fn group_at(self, setup: Setup, at: usize) -> Group
        ensures { result ≡ group self setup at };
}

// The group of the words w and v that stand at a and b.
fn pair_of(w: u16, v: u16, a: usize, b: usize) -> Group
    ensures { result ≡ pair_of w v a b }
{
    if !(location::written_of(w) && location::written_of(v)) {
        Group::Unwritten
    } else if !location::good(w) {
        Group::Bad(a)
    } else if !location::good(v) {
        Group::Bad(b)
    } else {
        Group::Bytes(location::data_of(w), location::data_of(v))
    }
}

// The words of a buffer.
impl Source for &[u16] {
    ghost group = { λ words. words_group words.now };

    #[tactic(auto, unfolding(crate::specs::Groups::words_group))]
    fn group_at(self, setup: Setup, at: usize) -> Group {
        let a = setup::wrap(setup.size, at);
        let b = setup::ahead(setup.size, at, 1);
        pair_of(words::word_at(self, a), words::word_at(self, b), a, b)
    }
}

// The bytes of an image.
impl Source for &[u8] {
    ghost group = { λ image. image_group image.now };

    #[tactic(auto, unfolding(crate::specs::Groups::image_group))]
    fn group_at(self, setup: Setup, at: usize) -> Group {
        let first = self.get(setup::wrap(setup.size, at));
        let second = self.get(setup::ahead(setup.size, at, 1));
        match (first, second) {
            (Some(a), Some(b)) => Group::Bytes(*a, *b),
            _ => Group::Unwritten,
        }
    }
}
