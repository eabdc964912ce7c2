ghost use Rattle.std.specs.Prelude.{◌≡◌, IfSome, None};
ghost use Rattle.audit_views.specs.Texts.Comments.{IsComment};

use std::marker::Model;

/// The most bytes of a comment.
const LONGEST: usize = 131_114;

/// The words of a comment in a capture text, without the `#` and the space before them: one line of at most 131,114 bytes.
#[derive(Drop)]
pub struct Comment {
    words: Vec<u8>,
}

impl Model for Comment {
    ghost use Rattle.std.specs.Prelude.{ℕ, List};
    ghost use Rattle.audit_views.specs.Texts.Comments.{IsComment};

    ghost Value = { List ℕ };

    ghost view = { λ c. c.words.items };

    ghost invariant = { λ c. IsComment c.words.items };
}

impl Comment {
    /// These words, unless there is a line end in them or they are too many.
    pub fn new(words: Vec<u8>) -> Option<Self>
        ensures words { IfSome result (λ c. c ≡ words.items) }
        ensures refused { result ≡ None → IsComment words.items → ⊥ }
    {
        if words.len() > LONGEST || words.contains(&b'\n') {
            return None;
        }
        Some(Comment { words })
    }

    /// These words, which a comment can hold.
    pub fn of(words: Vec<u8>) -> Self
        requires comment { IsComment words.items }
        ensures words { result ≡ words.items }
    {
        Comment { words }
    }

    /// The words.
    pub fn words(&self) -> &[u8]
        ensures words { result.now ≡ self.now }
        ensures comment { IsComment result.now }
    {
        self.words.as_slice()
    }
}
