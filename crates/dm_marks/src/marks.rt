//! Marks at places.
ghost use Rattle.std.specs.Prelude.{ℕ, ◌≡◌, ◌+◌, ◌*◌, ◌/◌, ◌<◌, true, false, List, Bool, length, replicate, slice_set, IfOk, IfSome, IfNone};
ghost use Rattle.dm_marks.specs.Marked.{is_marked, HasMark, IsFirstFrom, NoneFrom};
ghost use Rattle.dm_marks.specs.Inside.Words.{Turns, AreCovered, AreFew, IsFirstBit, NoBitFrom, NoBitBetween};

use std::alloc::{AllocError, Global};
use std::marker::Model;

/// How many places a word has a bit for, and how many words a group.
const WORD: usize = 64;

/// Which places are marked. The first mark from a place on is found without a look at each place between.
#[derive(Debug)]
pub struct Marks {
    flags: Vec<bool>,

    /// A bit of each place, which is set where the place is marked.
    words: Vec<u64>,

    /// A bit of each word, which is set where the word has a mark, or had one when it was looked at last.
    groups: Vec<u64>,
}

impl Drop for Marks {
    fn drop(self) {
        let Marks {
            flags: _,
            words: _,
            groups: _,
        } = self;
    }
}

impl Model for Marks {
    ghost use Rattle.std.specs.Prelude.{List, Bool};
    ghost use Rattle.dm_marks.specs.Inside.Words.{AreBits, AreCovered};

    ghost Value = { List Bool };

    ghost view = { λ m. m.flags.items };

    ghost invariant = { λ m. AreBits m.flags.items m.words.items × AreCovered m.words.items m.groups.items };
}

impl Marks {
    /// Room for the marks of so many places. None is marked.
    pub fn new(alloc: Global, places: usize) -> Result<Marks, AllocError>
        ensures { IfOk result (λ m. m ≡ replicate places false) }
    {
        let flags = vec![in alloc; false; places]?;
        let words = vec![in alloc; 0; places / WORD + 1]?;
        let groups = vec![in alloc; 0; words.len() / WORD + 1]?;
        Ok(Marks {
            flags,
            words,
            groups,
        })
    }

    /// The marks of so many places, of which every one is marked.
    pub fn all(alloc: Global, places: usize) -> Result<Marks, AllocError>
        ensures { IfOk result (λ m. m ≡ replicate places true) }
    {
        let mut marks = Marks::new(alloc, places)?;
        marks.mark_all();
        Ok(marks)
    }

    /// How many places there are.
    pub fn places(&self) -> usize
        ensures { result ≡ length self.now }
    {
        self.flags.len()
    }

    /// Whether a place is marked.
    pub fn is(&self, place: usize) -> bool
        requires { place < length self.now }
        ensures { result ≡ is_marked self.now place }
    {
        self.flags[place]
    }

    /// Marks a place.
    pub fn mark(&mut self, place: usize)
        requires { place < length self.old }
        ensures { self.new ≡ slice_set self.old place true }
    {
        self.flags[place] = true;
        set_told(&mut self.words, &mut self.groups, place);
    }

    /// Takes the mark at a place away.
    pub fn clear(&mut self, place: usize)
        requires { place < length self.old }
        ensures { self.new ≡ slice_set self.old place false }
    {
        self.flags[place] = false;
        clear_bit(&mut self.words, place);
    }

    /// Marks every place.
    pub fn mark_all(&mut self)
        ensures all { (place : ℕ) → place < length self.old → is_marked self.new place ≡ true }
        ensures as_many { length self.new ≡ length self.old }
    {
        for place in 0..self.places() {
            self.mark(place);
        }
    }

    /// Takes all marks away. It looks at words that may have some alone.
    pub fn clear_all(&mut self)
        ensures none { (place : ℕ) → is_marked self.new place ≡ false }
        ensures as_many { length self.new ≡ length self.old }
    {
        let places = self.places();
        let mut start = 0;
        while let Some(place) = self.first_from(start) {
            prove!(place < places);
            self.clear(place);
            start = place + 1;
        }
    }

    /// Whether some place is marked.
    pub fn is_any(&mut self) -> bool
        ensures some { result ≡ true → HasMark self.old (length self.old) }
        ensures none { result ≡ false → (place : ℕ) → is_marked self.old place ≡ false }
        ensures same { self.new ≡ self.old }
    {
        self.first_from(0).is_some()
    }

    /// The first place that is marked, from this one on. Between far marks it costs a step for each 4,096 places.
    #[tactic(auto, using(crate::proofs::Words::first_near))]
    pub fn first_from(&mut self, from: usize) -> Option<usize>
        ensures same { self.new ≡ self.old }
        ensures first { IfSome result (IsFirstFrom self.old from) }
        ensures none { IfNone result (NoneFrom self.old from) }
    {
        if from >= self.flags.len() {
            return None;
        }
        match first_in_word(&self.words, from) {
            Some(place) => Some(place),
            None => first_behind(&self.words, &mut self.groups, from / WORD + 1),
        }
    }

    /// Takes the first mark from this place on away, and answers where it was. It costs what [`Marks::first_from`] does.
    // Most marks are near the last one, so this part is short.
    #[inline(always)]
    pub fn take_first_from(&mut self, from: usize) -> Option<usize>
        ensures first { IfSome result (IsFirstFrom self.old from) }
        ensures taken { IfSome result (λ place. self.new ≡ slice_set self.old place false) }
        ensures none { IfNone result (NoneFrom self.old from) }
        ensures same { IfNone result (self.new ≡ self.old) }
    {
        if from >= self.flags.len() {
            return None;
        }
        match take_in_word(&mut self.words, from) {
            Some(place) => {
                self.flags[place] = false;
                Some(place)
            }
            None => self.take_far(from / WORD * WORD + WORD),
        }
    }

    /// The same by a search.
    #[inline(never)]
    fn take_far(&mut self, from: usize) -> Option<usize>
        ensures first { IfSome result (IsFirstFrom self.old from) }
        ensures taken { IfSome result (λ place. self.new ≡ slice_set self.old place false) }
        ensures none { IfNone result (NoneFrom self.old from) }
        ensures same { IfNone result (self.new ≡ self.old) }
    {
        let place = self.first_from(from)?;
        self.clear(place);
        Some(place)
    }
}

/// Takes the first bit that is set, from one on, of its word back.
fn take_in_word(words: &mut [u64], from: usize) -> Option<usize>
    requires few { AreFew words.old }
    requires within { from / WORD < length words.old }
    ensures first { IfSome result (IsFirstBit words.old from) }
    ensures taken { IfSome result (λ place. Turns words.old words.new place 0) }
    ensures none { IfNone result (NoBitBetween words.old from (from / WORD * WORD + WORD)) }
    ensures same { IfNone result (words.new ≡ words.old) }
{
    let word = words[from / WORD];
    let rest = word >> (from % WORD);
    if rest == 0 {
        return None;
    }
    let place = from + rest.trailing_zeros() as usize;
    words[from / WORD] = word & !(1 << (place % WORD));
    Some(place)
}

fn set_bit(words: &mut [u64], place: usize)
    requires { place / WORD < length words.old }
    ensures { Turns words.old words.new place 1 }
{
    words[place / WORD] |= 1 << (place % WORD);
}

/// Takes a bit back.
fn clear_bit(words: &mut [u64], place: usize)
    requires { place / WORD < length words.old }
    ensures { Turns words.old words.new place 0 }
{
    words[place / WORD] &= !(1 << (place % WORD));
}

/// Sets a bit, and tells of its word in its group. A word that has bits is told already.
fn set_told(words: &mut [u64], groups: &mut [u64], place: usize)
    requires covered { AreCovered words.old groups.old }
    requires within { place / WORD < length words.old }
    ensures words { Turns words.old words.new place 1 }
    ensures groups { Turns groups.old groups.new (place / WORD) 1 }
{
    let word = words[place / WORD];
    if word == 0 {
        set_bit(groups, place / WORD);
    }
    words[place / WORD] = word | 1 << (place % WORD);
}

/// The first bit that is set, from a word on. A word without bits is told as such, and not looked at again. It stays a call, so
/// that what is inlined above it is small.
#[inline(never)]
#[tactic(auto, using(crate::proofs::Words::none_behind, crate::proofs::Words::none_until, crate::proofs::Words::covered_told))]
fn first_behind(words: &[u64], groups: &mut [u64], word: usize) -> Option<usize>
    requires covered { AreCovered words.now groups.old }
    requires few { AreFew words.now }
    ensures covered { AreCovered words.now groups.new }
    ensures first { IfSome result (IsFirstBit words.now (word * WORD)) }
    ensures none { IfNone result (NoBitFrom words.now (word * WORD)) }
{
    let mut from = word;
    while let Some(next) = first_bit(groups, from) {
        if let Some(place) = first_in_word(words, next * WORD) {
            return Some(place);
        }
        clear_bit(groups, next);
        from = next + 1;
    }
    None
}

/// The first bit that is set, from one on.
fn first_bit(words: &[u64], from: usize) -> Option<usize>
    requires few { AreFew words.now }
    ensures first { IfSome result (IsFirstBit words.now from) }
    ensures none { IfNone result (NoBitFrom words.now from) }
{
    if from / WORD >= words.len() {
        return None;
    }
    match first_in_word(words, from) {
        Some(place) => Some(place),
        None => first_in_words(words, from / WORD + 1),
    }
}

/// The first bit that is set, from a word on.
fn first_in_words(words: &[u64], word: usize) -> Option<usize>
    requires few { AreFew words.now }
    ensures first { IfSome result (IsFirstBit words.now (word * WORD)) }
    ensures none { IfNone result (NoBitFrom words.now (word * WORD)) }
{
    for k in word..words.len() {
        if let Some(place) = first_in_word(words, k * WORD) {
            return Some(place);
        }
    }
    None
}

/// The first bit that is set, from one on, of its word.
fn first_in_word(words: &[u64], from: usize) -> Option<usize>
    requires few { AreFew words.now }
    requires within { from / WORD < length words.now }
    ensures first { IfSome result (IsFirstBit words.now from) }
    ensures none { IfNone result (NoBitBetween words.now from (from / WORD * WORD + WORD)) }
{
    let rest = words[from / WORD] >> (from % WORD);
    if rest == 0 {
        return None;
    }
    Some(from + rest.trailing_zeros() as usize)
}
