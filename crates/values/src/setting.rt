// What holds until another is encoded: a transform or a style.
ghost use Rattle.std.specs.Prelude.{◌≡◌, Bool};

/// A value that can be compared with the one encoded last.
// Each body is the derived `==`; the trait ties it to the specification's comparison, which generic code names.
pub trait Setting: Copy {
    ghost same: { Self → Self → Bool };

    /// Whether two are equal as numbers.
    fn is_same(self, other: Self) -> bool
        ensures { result ≡ same self other };
}
