/// How differences are packed into words: by Steim-1 or Steim-2.
#[derive(Clone, Copy, Debug, PartialEq, Eq)]
pub enum Scheme {
    /// Steim-1: differences of 8, 16 or 32 bits.
    One,
    /// Steim-2: differences of 4, 5, 6, 8, 10, 15 or 30 bits.
    Two,
}
