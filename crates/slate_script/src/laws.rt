// The texts of bounds give back what was printed.
ghost use Rattle.std.specs.Prelude.{◌≡◌, Some};
ghost use Rattle.slate_types.specs.declared.ranges.KeyBound.{KeyBound};
ghost use Rattle.slate_errors.specs.Texts.{bound_text};
ghost use Rattle.slate_script.specs.Values.{bound_of, IsOfBytes};

/// A bound of keys that an error shows is read again from a script.
pub fn bounds_read_again()
    ensures { (bound : KeyBound) → IsOfBytes bound → bound_of (bound_text bound) ≡ Some bound }
{}
