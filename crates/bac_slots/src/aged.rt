//! Traits of values that age in a table.
ghost use Rattle.std.specs.Prelude.{◌≡◌, ℕ, ◌+◌, ◌-◌, ◌<◌, ◌≤◌, Bool, true};

/// A value with a begin and a guaranteed lifetime, by the rules of the end E. All moments are in milliseconds.
pub trait Aged<E>: Drop {
    // The moment at which the value began.
    ghost began: { Self → ℕ };

    // Whether the value is alive at a moment.
    ghost lives: { ℕ → Self → Bool };

    // The guaranteed lifetime, in milliseconds.
    ghost LIFE: { ℕ };

    // The first moment, at or after a given one, at which a tick has something to do for the value; the greatest moment if there is none.
    ghost due_of: { ℕ → Self → ℕ };

    // A tick at or after the one moment and before the other has nothing to do for the value.
    ghost IsQuiet: { ℕ → ℕ → Self → Type 0 };

    /// The guaranteed lifetime, in milliseconds.
    const LIFE: u64;

    /// Whether the value is alive at a moment.
    fn is_alive(&self, now: u64) -> bool
        ensures { result ≡ lives now self.now };

    /// The first moment, at or after a given one, at which a tick has something to do for the value; the greatest moment if there is none.
    fn due(&self, from: u64) -> u64
        ensures due { result ≡ due_of from self.now }
        ensures quiet { IsQuiet from result self.now };

    /// Laws of each value: a value younger than its lifetime is alive; nothing to do before a moment means nothing to do before an
    /// earlier one.
    fn ages()
        ensures young { (now : ℕ) (v : Self) → now - (LIFE + 1) < began v → lives now v ≡ true }
        ensures earlier { (from due sooner : ℕ) (v : Self) → sooner ≤ due → IsQuiet from due v → IsQuiet from sooner v };
}

/// A value that changes when its timer expires, depending on the settings of its node and on its key.
pub trait Ticks<E, K, C>: Aged<E> {
    // The value after a tick at this moment.
    ghost ticked: { C → ℕ → K → Self → Self };

    /// Applies a tick at this moment. It does not allocate.
    fn tick(&mut self, settings: &C, now: u64, key: &K)
        ensures { self.new ≡ ticked settings.now now key.now self.old };

    /// Laws of each tick: if it has nothing to do, it changes nothing; it never changes the moment at which the value began.
    fn ticks()
        ensures rests { (c : C) (now from due : ℕ) (key : K) (v : Self) → from ≤ now → now < due → Self.IsQuiet from due v → ticked c now key v ≡ v }
        ensures begins { (c : C) (now : ℕ) (key : K) (v : Self) → Self.began (ticked c now key v) ≡ Self.began v };
}
