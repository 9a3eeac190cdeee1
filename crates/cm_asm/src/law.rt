//! Laws of the definitions that the calls are stated by.
ghost use Rattle.std.specs.Prelude.{◌≡◌, ℕ, List};
ghost use Rattle.cm_asm.specs.Listing.{AreWords, listing};

/// A text is the listing of one list of words at most: to read the listing of an image gives this image back.
pub fn one_image_per_listing()
    ensures { (first second : List ℕ) → AreWords first → AreWords second → listing first ≡ listing second → first ≡ second }
{}
