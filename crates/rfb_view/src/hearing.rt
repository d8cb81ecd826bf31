//! Hears what a viewer says, part by part: its version, the choice of a security, a byte on sharing, and
//! messages.
ghost use Rattle.std.specs.Prelude.{◌≡◌, ◌<◌, ◌+◌, ◌^◌, ◌==◌, ◌∷◌, ◌++◌, [], List, ℕ, length, bytes_eq, true};
ghost use Rattle.session_defs.specs.Messages.{size_of_message, message_of};
ghost use Rattle.session_defs.specs.Parts.{size_after};
ghost use Rattle.session_defs.specs.Sessions.{version, is_none_left};
ghost use Rattle.rfb_view.specs.Hearing.{HasHeard};
ghost use Rattle.rfb_view.specs.Messages.{meaning_of, IsSayable};

use crate::messages::{Message, message_of};
use arrayvec::ArrayVec;
use std::marker::Model;

/// What the server and the viewer send first: the version of the protocol.
const VERSION: &[u8; 12] = b"RFB 003.008\n";

/// The first twenty bytes of a part, which tell its size and its meaning, and how many bytes there were: a
/// message may pass over four gigabytes, which nobody keeps.
#[derive(Drop)]
pub struct Hearing {
    head: ArrayVec<u8, 20>,
    count: u64,
}

impl Model for Hearing {
    ghost use Rattle.rfb_view.specs.Hearing.{HearingState};

    ghost Value = { HearingState };

    ghost view = { λ h. record { head = h.head.items; count = h.count } };
}

/// How many bytes a message has that begins so, or how many tell that.
fn message_size(head: &[u8]) -> u64
    requires { 0 < length head.now }
    ensures { result ≡ size_of_message head.now }
{
    match head {
        [0, ..] => 20,
        [2, _, high, low, ..] => 4 + 4 * u64::from(u16::from_be_bytes([*high, *low])),
        [2, ..] => 4,
        [3, ..] => 10,
        [4, ..] => 8,
        [5, ..] => 6,
        [6, _, _, _, first, second, third, fourth, ..] => {
            8 + u64::from(u32::from_be_bytes([*first, *second, *third, *fourth]))
        }
        [6, ..] => 8,
        _ => 1,
    }
}

impl Hearing {
    /// Nothing is heard yet.
    pub fn new() -> Hearing
        ensures { HasHeard result [] }
    {
        Hearing {
            head: ArrayVec::new(),
            count: 0,
        }
    }

    /// Whether nothing is heard yet.
    #[tactic(auto, using(crate::proofs::Heads::none_heard))]
    pub fn is_new(&self) -> bool
        ensures { (bytes : List ℕ) → HasHeard self.now bytes → result ≡ is_none_left bytes }
    {
        self.count == 0
    }

    /// How many bytes the part has that comes after so many others, as far as its first bytes tell.
    #[tactic(auto, using(crate::proofs::Heads::size_by_head))]
    fn size(&self, parts: u8) -> u64
        requires { 0 < length self.now.head }
        ensures all { (bytes : List ℕ) → HasHeard self.now bytes → result ≡ size_after parts bytes }
        ensures head { result ≡ size_after parts self.now.head }
    {
        match parts {
            0 => 12,
            1 | 2 => 1,
            _ => message_size(self.head.as_slice()),
        }
    }

    /// Takes a byte.
    #[tactic(auto, using(crate::proofs::Heads::heard_more, crate::proofs::Heads::head_more, crate::proofs::Heads::head_full))]
    fn take(&mut self, byte: u8)
        requires { self.old.count + 1 < 2 ^ 64 }
        ensures heard { (bytes : List ℕ) → HasHeard self.old bytes →
            HasHeard self.new (bytes ++ byte ∷ []) }
        ensures some { 0 < length self.new.head }
        ensures counts { self.new.count ≡ self.old.count + 1 }
    {
        if !self.head.is_full() {
            self.head.push(byte);
        }
        self.count += 1;
    }

    /// Takes a byte of the part that comes after so many others, and tells whether the part is whole. All that
    /// come after the first three are messages.
    pub fn push(&mut self, byte: u8, parts: u8) -> bool
        requires { self.old.count + 1 < 2 ^ 64 }
        ensures heard { (bytes : List ℕ) → HasHeard self.old bytes →
            HasHeard self.new (bytes ++ byte ∷ []) }
        ensures whole { (bytes : List ℕ) → HasHeard self.old bytes →
            result ≡ (length (bytes ++ byte ∷ []) == size_after parts (bytes ++ byte ∷ [])) }
        ensures size { result ≡ true → self.new.count ≡ size_after parts self.new.head }
        ensures counts { self.new.count ≡ self.old.count + 1 }
    {
        self.take(byte);
        self.count == self.size(parts)
    }

    /// Whether a version that was heard whole is the one that the server speaks.
    #[tactic(auto, using(crate::proofs::Heads::whole_head))]
    pub fn is_version(&self) -> bool
        requires { self.now.count ≡ 12 }
        ensures { (heard : List ℕ) → HasHeard self.now heard → result ≡ bytes_eq heard version }
    {
        self.head.as_slice() == VERSION.as_slice()
    }

    /// Whether a choice of a security that was heard whole is the one that the server offers.
    #[tactic(auto, using(crate::proofs::Heads::whole_head))]
    pub fn is_choice(&self) -> bool
        requires { self.now.count ≡ 1 }
        ensures { (heard : List ℕ) → HasHeard self.now heard → result ≡ bytes_eq heard (1 ∷ []) }
    {
        self.head.as_slice() == [1].as_slice()
    }

    /// What a message says that was heard whole.
    #[tactic(auto, using(crate::proofs::Heads::said_by_head))]
    pub fn message(&self) -> Message
        ensures meaning { (heard : List ℕ) → HasHeard self.now heard → meaning_of result ≡ message_of heard }
        ensures sayable { IsSayable result }
    {
        message_of(self.head.as_slice())
    }
}
