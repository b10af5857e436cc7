//! A list of at most as many items as the slice that its owner lends has places.
#![tactic(auto)]

ghost use Rattle.std.specs.Prelude.{◌≡◌, ◌↔◌, IsTrue, [], ◌∷◌, length};
ghost use Rattle.bounded.specs.Lists.{append_answer, appended, emptied, get_answer, held, replace_answer, replaced};

use refusal::Refusal;

/// The items stand in the first `len` places of the lent memory, in the order of their appending.
///
/// Each method says over which memory the list is afterwards, which is how the owner of the memory
/// knows what it holds once the list has ended.
#[derive(Drop)]
pub struct List<'a, T> {
    slots: &'a mut [T],
    len: usize,
}

impl<'a, T: Copy> List<'a, T> {
    /// An empty list over these places, which stay as they are.
    pub fn over(slots: &'a mut [T]) -> List<'a, T>
        ensures holds { held result ≡ record { items = []; memory = slots.old } }
        ensures lender { result.slots.ghost_name ≡ slots.entry.ghost_name }
    {
        List { slots, len: 0 }
    }

    /// How many items there are.
    pub fn len(&self) -> usize
        ensures { result ≡ length (held self.now).items }
    {
        self.len.min(self.slots.len())
    }

    /// Whether there are no items.
    pub fn is_empty(&self) -> bool
        ensures { IsTrue result ↔ ((held self.now).items ≡ []) }
    {
        self.len() == 0
    }

    /// How many items there is memory for.
    pub fn places(&self) -> usize
        ensures { result ≡ length (held self.now).memory }
    {
        self.slots.len()
    }

    /// The items, first to last.
    pub fn items(&self) -> &[T]
        ensures { result.now ≡ (held self.now).items }
    {
        &self.slots[..self.len()]
    }

    /// Adds `x` at the end, in the first free place.
    pub fn append(&mut self, x: T) -> Result<(), Refusal>
        ensures answer { result ≡ append_answer (held self.old) }
        ensures holds { held self.new ≡ appended (held self.old) x }
        ensures lender { self.new.slots.ghost_name ≡ self.old.slots.ghost_name }
    {
        if self.len >= self.slots.len() {
            return Err(Refusal::NoRoom);
        }
        self.slots[self.len] = x;
        self.len += 1;
        Ok(())
    }

    /// The item at the index `i`.
    pub fn get(&self, i: usize) -> Result<T, Refusal>
        ensures { result ≡ get_answer (held self.now) i }
    {
        self.items().get(i).copied().ok_or(Refusal::PastTheEnd)
    }

    /// Puts `x` in the place of the item at the index `i`.
    pub fn replace(&mut self, i: usize, x: T) -> Result<(), Refusal>
        ensures answer { result ≡ replace_answer (held self.old) i }
        ensures holds { held self.new ≡ replaced (held self.old) i x }
        ensures lender { self.new.slots.ghost_name ≡ self.old.slots.ghost_name }
    {
        if i >= self.len() {
            return Err(Refusal::PastTheEnd);
        }
        self.slots[i] = x;
        Ok(())
    }

    /// No items any more; the memory stays as it is.
    pub fn clear(&mut self)
        ensures holds { held self.new ≡ emptied (held self.old) }
        ensures lender { self.new.slots.ghost_name ≡ self.old.slots.ghost_name }
    {
        self.len = 0;
    }
}

#[cfg(test)]
mod tests {
    use super::*;

    // What the array holds once the list over it has ended.
    fn two_of_three(a: u16, b: u16) -> [u16; 3]
        ensures { result ≡ a ∷ b ∷ 7 ∷ [] }
    {
        let mut array = [7; 3];
        let mut list = List::over(&mut array);
        let _ = list.append(a);
        let _ = list.append(b);
        array
    }

    #[test]
    fn memory_after_the_list(rt: HostRuntime) {
        assert_eq!(rt; two_of_three(1, 2), [1, 2, 7]);
    }

    #[test]
    fn refusals(rt: HostRuntime) {
        let mut array = [7u16; 1];
        let mut list = List::over(&mut array);
        assert_eq!(rt; list.get(0), Err(Refusal::PastTheEnd));
        assert_eq!(rt; list.is_empty(), true);
        assert_eq!(rt; list.append(1), Ok(()));
        assert_eq!(rt; list.is_empty(), false);
        assert_eq!(rt; list.append(2), Err(Refusal::NoRoom));
        assert_eq!(rt; list.replace(1, 2), Err(Refusal::PastTheEnd));
        assert_eq!(rt; list.get(0), Ok(1));
    }
}
