//! Texts by their places.
ghost use Rattle.std.specs.Prelude.{◌≡◌, [], List, length, slice_index_or};

/// Some texts, wherever they stand.
pub trait Texts {
    ghost use Rattle.std.specs.Prelude.{ℕ};

    /// The texts, in their order.
    ghost texts: { Self → List (List ℕ) };

    /// How many there are.
    fn count(&self) -> usize
        ensures { result ≡ length (texts self.now) };

    /// The text at a place; none where there is none.
    fn text(&self, place: usize) -> &[u8]
        ensures { result.now ≡ slice_index_or (texts self.now) place [] };
}

/// The texts of vectors.
#[derive(Clone, Copy, Drop)]
pub struct Vectors<'a>(pub &'a [Vec<u8>]);

impl Texts for Vectors<'_> {
    ghost use Rattle.cs_onetime.specs.Signature.{texts_in};

    ghost texts = { λ vectors. texts_in vectors.0.now };

    fn count(&self) -> usize {
        self.0.len()
    }

    fn text(&self, place: usize) -> &[u8] {
        match self.0.get(place) {
            Some(text) => text.as_slice(),
            None => &[],
        }
    }
}
