// A text in the making, in memory of its own: texts and numbers are put one behind the other, each whole or not at all.
#![tactic(auto)]

ghost use Rattle.std.specs.Prelude.{ℕ, ◌≤◌, ◌≡◌, List, [], take};
ghost use Rattle.decimal.specs.Text.{decimal, plain};
ghost use Rattle.texts.specs.Text.{fitted, grown};

use std::marker::Model;

// A contract sees the bytes put so far. Each put answers None where its text doesn't fit, and then all is as it was.
#[derive(Drop)]
pub struct Text<const N: usize> {
    buffer: [u8; N],
    end: usize,
}

impl<const N: usize> Model for Text<N> {
    ghost Value = { List ℕ };

    ghost view = { λ t. take t.end t.buffer };

    ghost invariant = { λ t. t.end ≤ N };
}

#[tactic(auto, using(crate::proofs::Growing::put_within, crate::proofs::Growing::put_fitted, crate::proofs::Growing::put_grown, crate::proofs::Growing::none_fitted, crate::proofs::Growing::none_grown))]
impl<const N: usize> Text<N> {
    // The empty text.
    pub fn new() -> Self
        ensures { result ≡ [] }
    {
        Text {
            buffer: [0; N],
            end: 0,
        }
    }

    pub fn bytes(&self) -> &[u8]
        ensures { result.now ≡ self.now }
    {
        &self.buffer[..self.end]
    }

    // A text, as a word or a separator.
    pub fn put(&mut self, text: &[u8]) -> Option<()>
        ensures reply { result ≡ fitted N self.old text.now }
        ensures text { self.new ≡ grown N self.old text.now }
    {
        self.end = decimal::put_text(&mut self.buffer, self.end, text)?;
        Some(())
    }

    // The digits of n.
    pub fn put_natural(&mut self, n: u64) -> Option<()>
        ensures reply { result ≡ fitted N self.old (decimal n) }
        ensures text { self.new ≡ grown N self.old (decimal n) }
    {
        self.end = decimal::put_natural(&mut self.buffer, self.end, n)?;
        Some(())
    }

    // The plain form of n.
    pub fn put_signed(&mut self, n: i32) -> Option<()>
        ensures reply { result ≡ fitted N self.old (plain n) }
        ensures text { self.new ≡ grown N self.old (plain n) }
    {
        self.end = decimal::put_signed(&mut self.buffer, self.end, n)?;
        Some(())
    }
}
