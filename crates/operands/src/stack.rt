// A stack of operands in fixed memory.
ghost use Rattle.std.specs.Prelude.{◌≡◌, ◌≤◌, [], ◌∷◌, map, reverse, length, drop, is_ok, if◌then◌else◌, nat_lt};
ghost use Rattle.operands.specs.Stack.{most, own_first, own_rest, codes_if, top_codes, forgotten};

use crate::operand::Operand;
use std::marker::Model;

/// How many operands there can be at once.
pub const MAX_OPERANDS: usize = 256;

/// The operands of a run. A contract sees them as a list, the top first.
#[derive(Drop)]
pub struct Operands {
    // An array and its height: `ArrayVec` writes over what it drops, so dropping many would not take constant time.
    items: [Operand; MAX_OPERANDS],
    height: usize,
}

impl Model for Operands {
    ghost use Rattle.std.specs.Prelude.{◌≡◌, ◌≤◌, List, length, reverse, take};
    ghost use Rattle.operands.specs.declared.operand.Operand.{Operand as One};
    ghost use Rattle.operands.specs.Stack.{most};

    ghost Value = { List One };

    ghost view = { λ o. reverse (take o.height o.items) };

    ghost invariant = { λ o. (length o.items ≡ most) × (o.height ≤ most) };
}

/// There is no room for one more.
#[derive(Clone, Copy, PartialEq, Eq, Debug)]
pub struct Full;

impl Operands {
    pub fn new() -> Operands
        ensures { result ≡ [] }
    {
        Operands {
            items: [Operand::Ended; MAX_OPERANDS],
            height: 0,
        }
    }

    #[tactic(auto, using(crate::proofs::Reversed::reversed))]
    pub fn len(&self) -> usize
        ensures count { result ≡ length self.now }
        ensures within { length self.now ≤ most }
    {
        self.height
    }

    /// Puts an operand on top.
    pub fn push(&mut self, v: Operand) -> Result<(), Full>
        ensures answer { is_ok result ≡ nat_lt (length self.old) most }
        ensures after { self.new ≡ (if nat_lt (length self.old) most then v ∷ self.old else self.old) }
    {
        let at = self.height;
        if at >= MAX_OPERANDS {
            return Err(Full);
        }
        self.items[at] = v;
        self.height = at + 1;
        Ok(())
    }

    /// The operand on top, unless it lies at or below the base.
    pub fn top(&self, base: usize) -> Option<Operand>
        ensures { result ≡ own_first base self.now }
    {
        if base >= self.height {
            return None;
        }
        Some(self.items[self.height - 1])
    }

    /// Takes the operand on top, unless it lies at or below the base.
    pub fn pop(&mut self, base: usize) -> Option<Operand>
        ensures answer { result ≡ own_first base self.old }
        ensures after { self.new ≡ own_rest base self.old }
    {
        if base >= self.height {
            return None;
        }
        let top = self.items[self.height - 1];
        self.drop_top(1);
        Some(top)
    }

    /// Drops so many operands from the top, or all if there are fewer.
    #[tactic(auto, using(crate::proofs::Reversed::reversed))]
    pub fn drop_top(&mut self, count: usize)
        ensures { self.new ≡ drop count self.old }
    {
        self.height = self.height.saturating_sub(count);
    }

    /// The codes of as many operands from the top as `out` takes, in the order in which they were pushed; none unless
    /// there are so many, and all of them values.
    #[tactic(auto, using(crate::proofs::Codes::tops))]
    pub fn values(&self, out: &mut [u32]) -> Option<()>
        ensures { codes_if result out.new ≡ top_codes (length out.old) self.now }
    {
        let first = self.height.checked_sub(out.len())?;
        copy_codes(&self.items[first..self.height], out)
    }

    /// The values of a loop that has ended are known as such from now on.
    #[tactic(auto, using(crate::proofs::Reversed::reversed))]
    pub fn forget(&mut self, frame: u8)
        ensures { self.new ≡ map (forgotten frame) self.old }
    {
        forget_all(&mut self.items[..self.height], frame);
    }
}

fn copy_codes(operands: &[Operand], out: &mut [u32]) -> Option<()>
    requires { length operands.now ≡ length out.old }
    ensures { codes_if result out.new ≡ top_codes (length out.old) (reverse operands.now) }
{
    // Tried as a `zip` with `iter_mut`: the proof did not close.
    for (place, operand) in operands.iter().enumerate() {
        out[place] = operand.code()?;
    }
    Some(())
}

fn forget_all(operands: &mut [Operand], frame: u8)
    ensures { operands.new ≡ map (forgotten frame) operands.old }
{
    for operand in operands.iter_mut() {
        *operand = operand.forgotten(frame);
    }
}
