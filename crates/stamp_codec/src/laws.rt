//! What the definitions mean for a client's author.
ghost use Rattle.std.specs.Prelude.{◌≡◌, ◌↔◌, ◌+◌, ◌%◌, ◌<◌, ℕ, List, true, Some};
ghost use Rattle.stamp_codec.specs.Message.{Message, is_message};
ghost use Rattle.stamp_codec.specs.Opening.{opened};
ghost use Rattle.stamp_codec.specs.Spelling.{IsStampedLine, pads, stamped_line, swapped};

/// Each spelling says one message, which `opened` reads out of it; and nothing else is opened.
pub fn one_message()
    ensures one { (one other : Message) → is_message one ≡ true → is_message other ≡ true → stamped_line one
        ≡ stamped_line other → one ≡ other }
    ensures opened { (line : List ℕ) (message : Message) → opened line ≡ Some message ↔ IsStampedLine message line }
{}

/// The pads fill the last group and no more, and a swap is undone by itself.
pub fn whole_groups()
    ensures filled { (n : ℕ) → (n + pads n) % 12 ≡ 0 }
    ensures few { (n : ℕ) → pads n < 12 }
    ensures undone { (bytes : List ℕ) → swapped (swapped bytes) ≡ bytes }
{}
