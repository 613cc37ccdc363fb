// A part as a frame lends it (reference/README.md): its memory set, cut to the places lent, and its checksum.
#![tactic(auto)]

use frames::Words;

// The numbers that a part has: words, or numbers of 32 bits.
pub trait Number: Copy + Into<u32> {
    // The next one of a frame.
    fn read(words: &mut Words<'_>) -> Self;
}

impl Number for u16 {
    fn read(words: &mut Words<'_>) -> u16 {
        words.word()
    }
}

impl Number for u32 {
    fn read(words: &mut Words<'_>) -> u32 {
        words.long()
    }
}

// A part: its memory, and how many places the call at hand is said to be lent, which may be more than there are.
#[derive(Drop)]
pub struct Part<'a, T> {
    memory: &'a mut [T],
    places: usize,
}

impl<'a, T: Number> Part<'a, T> {
    // A part of which nothing is lent yet.
    pub fn new(memory: &'a mut [T]) -> Part<'a, T> {
        Part { memory, places: 0 }
    }

    // Sets the memory as the next words of a frame say.
    fn set(&mut self, words: &mut Words<'_>) {
        let mode = words.word();
        if mode % 2 == 1 {
            let number = T::read(words);
            for place in self.lent() {
                *place = number;
            }
        }
        if mode >= 2 {
            let first = usize::from(words.word());
            let count = usize::from(words.word());
            for i in first..first + count {
                let number = T::read(words);
                if let Some(place) = self.memory.get_mut(i) {
                    *place = number;
                }
            }
        }
    }

    // Lends nothing of the part.
    pub fn clear(&mut self) {
        self.places = 0;
    }

    // Lends the part as the next words of a frame say.
    pub fn load(&mut self, words: &mut Words<'_>) {
        self.places = usize::from(words.word());
        self.set(words);
    }

    // The places lent, of those that there are.
    pub fn lent(&mut self) -> &mut [T] {
        let n = self.places.min(self.memory.len());
        &mut self.memory[..n]
    }

    // The same, to read.
    pub fn read(&self) -> &[T] {
        let n = self.places.min(self.memory.len());
        &self.memory[..n]
    }

    // The checksum with the places lent more. Where the memory has no such place there is a 0.
    pub fn checksum(&self, sum: u64) -> u64 {
        let mut h = sum;
        for i in 0..self.places {
            h = add(h, self.memory.get(i).map_or(0, |number| (*number).into()));
        }
        h
    }
}

// The checksum with one number more.
pub fn add(sum: u64, number: u32) -> u64 {
    (sum % 2147483647 * 65599 + u64::from(number)) % 2147483647
}
