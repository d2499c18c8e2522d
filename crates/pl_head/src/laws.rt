//! In how many ways a request begins. These functions do nothing: their contracts are the laws.
ghost use Rattle.std.specs.Prelude.{◌≡◌, ℕ, List};
ghost use Rattle.httparse.specs.Grammar.{RequestHead};
ghost use Rattle.pl_head.specs.Front.{Front, IsFront, whole};

/// A text with a whole head begins in no other way. So the one choice that is left, where no head
/// stands at the front and none can come, is between a bad one and one too long or cut short.
pub fn whole_head_is_alone()
    ensures { (text : List ℕ) (head : RequestHead) (other : Front)
        → IsFront text (whole head) → IsFront text other → other ≡ whole head }
{}

/// Each text begins in one of the four ways: beside a whole head there is only a bad one, one too
/// long and one cut short.
pub fn each_text_begins()
    ensures { (text : List ℕ) → ((front : Front) → ¬ (IsFront text front)) → ⊥ }
{}
