ghost use Rattle.std.specs.Prelude.{◌≡◌, ℕ, ◌-◌, ◌≤◌, List, [], ◌∷◌, ◌++◌, length, take, if◌then◌else◌, Ok, Err, nat_lt, slice_get};
ghost use Rattle.pool_trial.specs.Tops.{top_of};

use command::refusal::Refusal;
use std::marker::Model;

// `[0; 256]` in a plain struct, and no vector of a library: the form for sets and free stacks in docs/DECISIONS.md.
/// Buffers by their numbers, at most 256 of them.
#[derive(Drop)]
pub struct Stack {
    items: [usize; 256],
    len: usize,
}

impl Model for Stack {
    ghost Value = { List ℕ };

    ghost view = { λ s. take s.len s.items };

    ghost invariant = { λ s. s.len ≤ 256 };
}

impl Stack {
    /// A stack of none.
    pub fn new() -> Stack
        ensures { result ≡ [] }
    {
        Stack {
            items: [0; 256],
            len: 0,
        }
    }

    /// How many there are.
    pub fn len(&self) -> usize
        ensures within { result ≤ 256 }
        ensures answer { result ≡ length self.now }
    {
        self.len
    }

    /// The buffer at a place, counted from 0 at the bottom, or nothing where there are not so many.
    pub fn get(&self, i: usize) -> Option<usize>
        ensures { result ≡ slice_get self.now i }
    {
        if i >= self.len {
            return None;
        }
        Some(self.items[i])
    }

    /// Takes the top off.
    pub fn pop(&mut self) -> Option<usize>
        ensures answer { result ≡ top_of self.old }
        ensures after { self.new ≡ take (length self.old - 1) self.old }
    {
        self.len = self.len.checked_sub(1)?;
        Some(self.items[self.len])
    }

    /// Puts a buffer on top. Refusal 14, and nothing changes, where there are 256.
    pub fn push(&mut self, buffer: usize) -> Result<(), Refusal>
        ensures answer { result ≡ (if nat_lt (length self.old) 256 then Ok tt else Err Refusal.TableFull) }
        ensures after { self.new ≡ (if nat_lt (length self.old) 256 then self.old ++ buffer ∷ [] else self.old) }
    {
        if self.len == 256 {
            return Err(Refusal::TableFull);
        }
        self.items[self.len] = buffer;
        self.len += 1;
        Ok(())
    }
}
